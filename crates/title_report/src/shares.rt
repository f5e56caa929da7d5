//! What stands behind the name in a row of a sheet: its share, and the line's end.

ghost use Rattle.std.specs.{Prelude.{◌≡◌, ◌≤◌, ◌++◌, ◌∷◌, [], ◌^◌, ◌/◌, ◌-◌, false, slice_index_or}, Fmt.{decimal}};
ghost use Rattle.title_share.specs.Share.{share_text};
ghost use Rattle.title_report.specs.{Fronts.{bottoms, tail_text}, Puts.{IsPut}};

use itoa::Buffer;
use title_device::{Failed, Sink};
use title_page::Page;

// How often units are halved to lowest terms.
fn halvings(units: u64) -> u32
    ensures most { result ≤ 32 }
    ensures text { share_text units ≡ decimal (units / 2 ^ result) ++ 47 ∷ decimal (2 ^ (32 - result)) }
{
    let zeros = units.trailing_zeros();
    if zeros > 32 {
        return 32;
    }
    zeros
}

// The line of a fraction, a power of two below it, and the line's end.
fn bottom_bytes(exponent: u32) -> &'static [u8]
    requires most { exponent ≤ 32 }
    ensures bottom { result.now ≡ slice_index_or bottoms exponent [] }
{
    match exponent {
        0 => b"/1\n",
        1 => b"/2\n",
        2 => b"/4\n",
        3 => b"/8\n",
        4 => b"/16\n",
        5 => b"/32\n",
        6 => b"/64\n",
        7 => b"/128\n",
        8 => b"/256\n",
        9 => b"/512\n",
        10 => b"/1024\n",
        11 => b"/2048\n",
        12 => b"/4096\n",
        13 => b"/8192\n",
        14 => b"/16384\n",
        15 => b"/32768\n",
        16 => b"/65536\n",
        17 => b"/131072\n",
        18 => b"/262144\n",
        19 => b"/524288\n",
        20 => b"/1048576\n",
        21 => b"/2097152\n",
        22 => b"/4194304\n",
        23 => b"/8388608\n",
        24 => b"/16777216\n",
        25 => b"/33554432\n",
        26 => b"/67108864\n",
        27 => b"/134217728\n",
        28 => b"/268435456\n",
        29 => b"/536870912\n",
        30 => b"/1073741824\n",
        31 => b"/2147483648\n",
        _ => b"/4294967296\n",
    }
}

// Writes what stands behind the name in a row of a sheet.
pub(crate) fn put_tail<S: Sink>(page: &mut Page, sink: &mut S, units: u64) -> Result<(), Failed>
    requires works { S.has_failed sink.old ≡ false }
    ensures put { IsPut result (S.taken sink.old) page.old (S.taken sink.new) page.new (S.has_failed sink.new) (tail_text units) }
{
    let halved = halvings(units);
    let bottom = bottom_bytes(32 - halved);
    let mut digits = Buffer::new();
    let above = digits.format(units >> halved).as_bytes();
    page.put(sink, b",")?;
    page.put(sink, above)?;
    page.put(sink, bottom)
}
