//! What a torn write may have left in the place of what was written, made to deceive.

use std::alloc::{AllocError, Global};

// What each lie consists of, once or again and again. A number in it is that of a block's last row.
static SEEDS: [&str; 19] = [
    "\n",
    "\r\n",
    "+",
    "+\n",
    "-",
    "-\n",
    "\"",
    "\"\n",
    "\u{feff}",
    "\0",
    "1,commit\n",
    "2,commit\nend,1\n-",
    "end,#\n-",
    "\nend,#\n+",
    "+\nparty,EVE\nend,#\n+",
    "7,deed,666,UNITED STATES,ADAMS,S,W1/2,,T3N R2W sec 1 NE1/4\nend,*\n-",
    "+\n7,deed,666,UNITED STATES,ADAMS,S,W1/2,,T3N R2W sec 1 NE1/4\nend,*\n+",
    "+\n7,begin\n7,commit\nend,*\n+",
    "titleplant plant 1\n+\n",
];

fn add_number(alloc: Global, text: &mut Vec<u8>, number: u64) -> Result<(), AllocError> {
    text.extend_from_slice(format!(in alloc; "{number}")?.as_bytes())
}

// A seed with its numbers: `#` is how many transactions stand, and `*` one more.
fn seed_with(alloc: Global, seed: &str, stand: u64) -> Result<Vec<u8>, AllocError> {
    let mut text = Vec::new(alloc);
    for byte in seed.bytes() {
        match byte {
            b'#' => add_number(alloc, &mut text, stand)?,
            b'*' => add_number(alloc, &mut text, stand.saturating_add(1))?,
            _ => text.push(byte)?,
        }
    }
    Ok(text)
}

// A text again and again, down to so many bytes.
fn again(alloc: Global, text: &[u8], room: usize) -> Result<Vec<u8>, AllocError> {
    let mut lie = Vec::new(alloc);
    for byte in text.iter().cycle().take(room) {
        lie.push(*byte)?;
    }
    Ok(lie)
}

// Adds the beginnings of a text that tell most: all of it, without its last byte, and half.
fn add(alloc: Global, lies: &mut Vec<Vec<u8>>, text: &[u8], room: usize) -> Result<(), AllocError> {
    let most = text.len().min(room);
    for len in [most, most.saturating_sub(1), most / 2] {
        let lie = text.get(..len).unwrap_or(text);
        lies.push(Vec::from_slice(alloc, lie)?)?;
    }
    Ok(())
}

// Adds the lies that a text makes, once and again and again.
fn add_both(
    alloc: Global,
    lies: &mut Vec<Vec<u8>>,
    text: &[u8],
    room: usize,
) -> Result<(), AllocError> {
    add(alloc, lies, text, room)?;
    let lie = again(alloc, text, room)?;
    add(alloc, lies, lie.as_slice(), room)
}

/// Lies of at most so many bytes, where so many transactions stand.
pub fn lies(alloc: Global, room: usize, stand: u64) -> Result<Vec<Vec<u8>>, AllocError> {
    let mut lies = Vec::new(alloc);
    for seed in &SEEDS {
        let text = seed_with(alloc, *seed, stand)?;
        add_both(alloc, &mut lies, text.as_slice(), room)?;
    }
    Ok(lies)
}
