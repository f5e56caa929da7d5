//! The gates of a plant's file.

ghost use Rattle.std.specs.Prelude.{◌≡◌, ◌≤◌, ◌<◌, ◌^◌, length, take, IfSome, IfNone, slice_index, IsErr};
ghost use Rattle.title_journal.specs.Blocks.{line_feed, IsRow, IsBlock, IsUnfinished};
ghost use Rattle.title_file.specs.Fronts.{AreGates, blocks_behind};

/// Where bytes stand that may be other on the disk than a read shows them.
#[derive(Clone, Copy)]
pub(crate) struct Gates {
    /// The last open gate, if there is one.
    pub opened: Option<usize>,
    /// The gate behind the blocks that count.
    pub end: usize,
}

/// With what the last row of a block begins.
const END: &[u8] = b"end,";

/// The gates of a file whose first row is this one; none where it is no plant.
pub(crate) fn find_gates(head: &[u8], file: &[u8]) -> Option<Gates>
    requires fits { length file.now < 2 ^ 63 }
    ensures gates { IfSome result (AreGates head.now file.now) }
    ensures none { IfNone result (IsErr (blocks_behind head.now file.now)) }
{
    if !file.starts_with(head) {
        return None;
    }
    let mut opened = None;
    let mut offset = head.len();
    while offset + 1 < file.len() && file[offset] == b'+' {
        if file[offset + 1] != b'\n' {
            return None;
        }
        let start = offset + 2;
        let Some(len) = block_len(&file[start..]) else {
            return None;
        };
        opened = Some(offset);
        offset = start + len;
    }
    Some(Gates {
        opened,
        end: offset,
    })
}

// How long the block is that begins here; none where it isn't whole.
fn block_len(bytes: &[u8]) -> Option<usize>
    ensures block { IfSome result (λ len. (len ≤ length bytes.now) × IsBlock (take len bytes.now)) }
    ensures unfinished { IfNone result (IsUnfinished bytes.now) }
{
    let mut at = 0;
    while let Some(len) = row_len(&bytes[at..]) {
        let ends = bytes[at..at + len].starts_with(END);
        at += len + 1;
        if ends {
            return Some(at);
        }
    }
    None
}

// How long the row is that begins here, without its line feed; none where it isn't whole.
fn row_len(bytes: &[u8]) -> Option<usize>
    ensures row { IfSome result (λ len. (len < length bytes.now) × IsRow (take len bytes.now)
        × (slice_index bytes.now len ≡ line_feed)) }
    ensures start { IfNone result (IsRow bytes.now) }
{
    bytes.iter().position(|byte| *byte == b'\n')
}
