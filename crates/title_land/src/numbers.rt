//! Nodes as numbers, by which maps find them. A number's last 6 bits are the section's, the 16 before them the township's, and
//! those before them the square's; a township has no section and no square, and the whole plant is 0. No code elsewhere knows this.

ghost use Rattle.std.specs.Prelude.{◌≡◌, ◌<◌, ◌^◌, List};
ghost use Rattle.title_land.specs.{declared.{survey.Section.{Section}, rectangle.Quarter.{Quarter}, node.Node.{Node}}, Nodes.{is_square}};
ghost use Rattle.title_land.specs.NodeNumbers.{flag_number, township_number, section_number, node_number, number_above};
ghost use Rattle.title_land.specs.declared.node.Node.TheVariants as node;

use crate::node::Node;
use crate::survey::{Section, Township};

// From one township's number to the next; those between are its sections'.
const TOWNSHIP_STEP: u64 = 64;

// From one square's number to the next in its section. The plant and all townships and sections have lesser ones.
const SQUARE_STEP: u64 = 4_194_304;

// From here on stand the numbers of squares whose node above is a square.
const QUARTERS: u64 = 4 * SQUARE_STEP;

// 1 for north of the base line, and for east of the meridian.
fn flag_number(flag: bool) -> u64
    ensures number { result ≡ flag_number flag }
    ensures fits { result < 2 }
{
    if flag { 1 } else { 0 }
}

// The number of a township, which is that of no other.
fn township_number(township: Township) -> u64
    ensures number { result ≡ township_number township }
    ensures fits { result < 2 ^ 20 }
{
    let north = township.number as u64 * 2 + flag_number(township.north);
    let range = north * 128 + township.range as u64;
    range * 2 + flag_number(township.east)
}

// The number of a section.
fn section_number(section: Section) -> u64
    ensures number { result ≡ section_number section }
    ensures fits { result < 2 ^ 32 }
{
    township_number(section.township) * TOWNSHIP_STEP + section.number as u64
}

impl Node {
    /// Its number below 2^38, which is that of no other node: 0 for the whole plant.
    pub fn number(self) -> u64
        ensures number { result ≡ node_number self }
        ensures fits { result < 2 ^ 38 }
    {
        match self {
            Node::Everything => 0,
            Node::Township(township) => township_number(township) * TOWNSHIP_STEP,
            Node::Part(section, within) => {
                u64::from(within.number()) * SQUARE_STEP + section_number(section)
            }
        }
    }
}

/// The number of the node above the one with this number; 0, the whole plant's, gives 0.
pub fn number_above(number: u64) -> u64
    ensures above { result ≡ number_above number }
    ensures falls { 0 < number → result < number }
{
    if number < SQUARE_STEP {
        0
    } else if number < QUARTERS {
        number % SQUARE_STEP / TOWNSHIP_STEP * TOWNSHIP_STEP
    } else {
        number / QUARTERS * SQUARE_STEP + number % SQUARE_STEP
    }
}

/// Whether the node with this number is a square of a section.
pub fn is_square_number(number: u64) -> bool
    ensures square { (n : Node) → number ≡ node_number n → result ≡ is_square n }
{
    number >= SQUARE_STEP
}

/// The number of the section of the square with this number.
pub fn section_of_square(number: u64) -> u64
    ensures section { (s : Section) (w : List Quarter) → number ≡ node_number (node.Part s w) → result ≡ section_number s }
{
    number % SQUARE_STEP
}

/// The number of the township of the section with this number.
pub fn township_of_section(number: u64) -> u64
    ensures township { (s : Section) → number ≡ section_number s → result ≡ node_number (node.Township s.township) }
{
    number / TOWNSHIP_STEP * TOWNSHIP_STEP
}
