// Expressions from bytes: nested fields are read, and their nodes built in lent memory.
#![tactic(auto)]

ghost use Rattle.std.specs.Prelude.{◌≡◌, ℕ, ◌+◌, ◌≤◌, ◌<◌, ◌^◌, length, drop, MatchOption};
ghost use Rattle.nodes.specs.MeaningBytes.{field_of};
ghost use Rattle.nodes.specs.MirrorBuilding.{NoField, Field, Reads, an_expression, some_terms};

use expression::{Kind, NODE, put_node};

// A field begins with its tag and two length bytes, high first.
const HEADER: usize = 3;

// The tag of a reference; ANDOR, AND and ONEOF come after it, as their kinds do.
const TAG: u8 = 80;

const LAST_TAG: u8 = 83;

// The field that begins the bytes and those behind it, unless it is cut.
fn split_field(bytes: &[u8]) -> Option<(&[u8], &[u8])>
    ensures { MatchOption result (NoField bytes.now) (λ p. Field bytes.now p.0.now p.1.now) }
{
    let [_, high, low, ..] = bytes else {
        return None;
    };
    bytes.split_at_checked(HEADER + 256 * usize::from(*high) + usize::from(*low))
}

// A reference holds two bytes: its index, which is at most 255.
fn read_reference(field: &[u8], nodes: &mut [u16], used: usize) -> Option<usize>
    requires { (used + 3 ≤ length nodes.old) × (field.now ≡ field_of 80 (drop 3 field.now)) }
    ensures { (calls : ℕ) → 2 ≤ calls → Reads an_expression field.now calls used nodes.old nodes.new result }
{
    let [_, _, _, high, low] = field else {
        return None;
    };
    if *high != 0 {
        return None;
    }
    let kind = u16::from(Kind::Reference);
    Some(put_node(nodes, used, kind, u16::from(*low), NODE as u16))
}

// The expression that a field is goes behind the numbers that are used; how many stand then, or that the field is none. The depth falls at each call, and a level takes two.
#[cycle(read_node_read_terms)]
pub fn read_node(field: &[u8], nodes: &mut [u16], used: usize, depth: usize) -> Option<usize>
    requires { (used ≤ length nodes.old) × (length nodes.old < 2 ^ 16) }
    ensures { Reads an_expression field.now depth used nodes.old nodes.new result }
{
    if depth < 2 {
        return None;
    }
    let (_, behind) = split_field(field)?;
    if !behind.is_empty() {
        return None;
    }
    if nodes.len() - used < NODE {
        return None;
    }
    let tag = field[0];
    if tag < TAG || LAST_TAG < tag {
        return None;
    }
    let kind = u16::from(tag - TAG);
    match Kind::from(kind) {
        Kind::Reference => read_reference(field, nodes, used),
        _ => {
            let body = put_node(nodes, used, kind, 0, 0);
            let next = read_terms(&field[HEADER..], nodes, body, depth - 1)?;
            // how many numbers the node takes is known now
            nodes[used + 2] = (next - used) as u16;
            Some(next)
        }
    }
}

// The expressions that fields are, one after the other.
#[cycle(read_node_read_terms)]
pub fn read_terms(fields: &[u8], nodes: &mut [u16], used: usize, depth: usize) -> Option<usize>
    requires { (used ≤ length nodes.old) × (length nodes.old < 2 ^ 16) × (1 ≤ depth) }
    ensures { Reads some_terms fields.now depth used nodes.old nodes.new result }
{
    let mut left = fields;
    let mut next = used;
    // a cut field ends the reading, which an iterator's `None` would not tell from the end
    while !left.is_empty() {
        let (field, behind) = split_field(left)?;
        next = read_node(field, nodes, next, depth - 1)?;
        left = behind;
    }
    Some(next)
}
