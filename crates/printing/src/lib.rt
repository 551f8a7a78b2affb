// Writes a rule as text, with parentheses exactly where a part would group otherwise. Not by `write!`: a formatter's contract leaves open whether a write
// succeeds, and `print` promises that it does wherever there is room.
#![tactic(auto)]

ghost use Rattle.std.specs.Prelude.{◌≡◌, ◌+◌, ◌-◌, ◌≤◌, ◌<◌, length};
ghost use Rattle.rule.specs.Numbering.{formula_at};
ghost use Rattle.printing.specs.Shapes.{Standing, ShapeIs, level_of_shape, sized, Small, InSlot, Sizes, SizeIs};
ghost use Rattle.printing.specs.Writing.{Adds, Room, Wrote, BareRoom, WroteBare};
ghost use Rattle.printing.specs.Printing.{Printing};

use answers::Refusal;
use reading::{MOST_BYTES, MOST_DEPTH};
use rule::numbering::Numbering;
use rule::{Formula, FormulaNo, Rule};

// The level of `->`, the loosest: a whole rule stands bare at it.
const LOOSEST: u8 = 4;

// How a binary sign is written. Levels: 0 an operand, 1 `U` and `R`, 2 `&`, 3 `|`. The table of reading (`Binary::row`) says what a sign asks of what is
// read, this one has its byte and the level of its left part, and no rule has `->`: one table of both would have columns that each half does not use.
#[derive(Clone, Copy)]
struct Joint {
    byte: u8,
    level: u8,
    left: u8,
    right: u8,
    deeper: usize,
}

const UNTIL: Joint = Joint {
    byte: b'U',
    level: 1,
    left: 0,
    right: 1,
    deeper: 1,
};

const RELEASE: Joint = Joint {
    byte: b'R',
    ..UNTIL
};

const AND: Joint = Joint {
    byte: b'&',
    level: 2,
    left: 2,
    right: 1,
    deeper: 0,
};

const OR: Joint = Joint {
    byte: b'|',
    level: 3,
    left: 3,
    right: 2,
    deeper: 0,
};

// How a formula is written: its own bytes, and its parts.
#[derive(Clone, Copy)]
enum Shape {
    Leaf(u8),
    NotFlag(u8),
    Prefix(u8, FormulaNo),
    Binary(Joint, FormulaNo, FormulaNo),
}

impl Shape {
    fn level(self) -> u8
        ensures { result ≡ level_of_shape self }
    {
        match self {
            Shape::Leaf(_) | Shape::NotFlag(_) | Shape::Prefix(_, _) => 0,
            Shape::Binary(joint, _, _) => joint.level,
        }
    }
}

fn formula_at(rule: &Rule, k: FormulaNo) -> Formula
    requires { k.0 < 64 }
    ensures { result ≡ formula_at rule.now.entries k.0 }
{
    rule.entries[usize::from(k.0)]
}

// `1 U q` is written `F q`, and `0 R q` is written `G q`.
fn shape_of(rule: &Rule, k: FormulaNo) -> Shape
    requires { Standing rule.now.entries k.0 }
    ensures { ShapeIs rule.now.entries k.0 result }
{
    let formula = formula_at(rule, k);
    match formula {
        Formula::Flag(flag) => Shape::Leaf(b'a' + flag),
        Formula::NotFlag(flag) => Shape::NotFlag(b'a' + flag),
        Formula::True => Shape::Leaf(b'1'),
        Formula::False => Shape::Leaf(b'0'),
        Formula::And(p, q) => Shape::Binary(AND, p, q),
        Formula::Or(p, q) => Shape::Binary(OR, p, q),
        Formula::Next(p) => Shape::Prefix(b'X', p),
        Formula::WeakNext(p) => Shape::Prefix(b'N', p),
        Formula::Until(p, q) if formula_at(rule, p) == Formula::True => Shape::Prefix(b'F', q),
        Formula::Until(p, q) => Shape::Binary(UNTIL, p, q),
        Formula::Release(p, q) if formula_at(rule, p) == Formula::False => Shape::Prefix(b'G', q),
        Formula::Release(p, q) => Shape::Binary(RELEASE, p, q),
    }
}

// ---- measuring: each formula once, so that parts in common cost nothing

// A formula's bare text: its level, its bytes and its depth, cut off above what can be printed.
#[derive(Clone, Copy)]
struct Size {
    level: u8,
    bytes: usize,
    depth: usize,
}

impl Size {
    fn cut(level: u8, bytes: usize, depth: usize) -> Size
        ensures { result ≡ sized level bytes depth }
    {
        Size {
            level,
            bytes: bytes.min(MOST_BYTES + 1),
            depth: depth.min(MOST_DEPTH + 1),
        }
    }

    // As a part: with a parenthesis on each side where it is too loose for its slot.
    fn in_slot(self, slot: u8) -> Size
        requires { Small self }
        ensures { InSlot self slot result }
    {
        if slot < self.level {
            Size {
                level: 0,
                bytes: self.bytes + 2,
                depth: self.depth + 1,
            }
        } else {
            self
        }
    }
}

// The size of formula k, from those of its parts.
fn size_of(rule: &Rule, k: FormulaNo, sizes: &[Size; 64]) -> Size
    requires { Standing rule.now.entries k.0 × Sizes rule.now.entries k.0 sizes.now }
    ensures { SizeIs rule.now.entries k.0 result }
{
    match shape_of(rule, k) {
        Shape::Leaf(_) => Size::cut(0, 1, 0),
        Shape::NotFlag(_) => Size::cut(0, 2, 1),
        Shape::Prefix(_, p) => {
            let part = sizes[usize::from(p.0)].in_slot(0);
            Size::cut(0, 2 + part.bytes, part.depth + 1)
        }
        Shape::Binary(joint, p, q) => {
            let left = sizes[usize::from(p.0)].in_slot(joint.left);
            let right = sizes[usize::from(q.0)].in_slot(joint.right);
            let depth = left.depth.max(right.depth + joint.deeper);
            Size::cut(joint.level, left.bytes + 3 + right.bytes, depth)
        }
    }
}

// The size of the whole rule. A formula's size is made of those before it in the same array, so the loop counts by number.
fn measure(numbering: Numbering) -> Size
    ensures { SizeIs numbering.entry.rule.now.entries (numbering.entry.rule.now.count - 1) result }
{
    let rule = numbering.rule;
    let mut sizes = [Size::cut(0, 0, 0); 64];
    for k in 0..rule.count {
        sizes[k] = size_of(rule, FormulaNo(k as u8), &sizes);
    }
    sizes[rule.count - 1]
}

// ---- writing

// A lent slice, and where the text that is written into it ends. The crate `walking` has one like it: one for both would be public, and `add` asks for
// room, which no public function may.
#[derive(Drop)]
struct Text<'a> {
    out: &'a mut [u8],
    end: usize,
}

impl Text<'_> {
    fn add(&mut self, bytes: &[u8])
        requires { self.old.end + length bytes.now ≤ length self.old.out.now }
        ensures { Adds self.old bytes.now self.new }
    {
        let end = self.end + bytes.len();
        self.out[self.end..end].copy_from_slice(bytes);
        self.end = end;
    }

    // Formula k where a part of at most the level `slot` may stand.
    #[cycle(write_write_bare)]
    fn write(&mut self, rule: &Rule, k: FormulaNo, slot: u8)
        requires { Room rule.now.entries k.0 slot self.old }
        ensures { Wrote rule.now.entries k.0 slot self.old self.new }
    {
        let shape = shape_of(rule, k);
        if slot < shape.level() {
            self.add(b"(");
            self.write_bare(rule, k, shape);
            self.add(b")");
        } else {
            self.write_bare(rule, k, shape);
        }
    }

    #[cycle(write_write_bare)]
    fn write_bare(&mut self, rule: &Rule, k: FormulaNo, shape: Shape)
        requires { BareRoom rule.now.entries k.0 shape self.old }
        ensures { WroteBare rule.now.entries k.0 shape self.old self.new }
    {
        match shape {
            Shape::Leaf(byte) => self.add(&[byte]),
            Shape::NotFlag(byte) => self.add(&[b'!', byte]),
            Shape::Prefix(byte, p) => {
                self.add(&[byte, b' ']);
                self.write(rule, p, 0);
            }
            Shape::Binary(joint, p, q) => {
                self.write(rule, p, joint.left);
                self.add(&[b' ', joint.byte, b' ']);
                self.write(rule, q, joint.right);
            }
        }
    }
}

// Writes the rule's text to the front of the slice, and says how many bytes it has.
pub fn print(rule: &Rule, out: &mut [u8]) -> Result<usize, Refusal>
    ensures { Printing rule.now out.old out.new result }
{
    let numbering = rule.numbering().ok_or(Refusal::NotARule)?;
    if out.len() < MOST_BYTES {
        return Err(Refusal::ShortSlice);
    }
    let size = measure(numbering);
    if MOST_BYTES < size.bytes || MOST_DEPTH < size.depth {
        return Err(Refusal::TooLong);
    }
    let mut text = Text { out, end: 0 };
    text.write(rule, FormulaNo((rule.count - 1) as u8), LOOSEST);
    Ok(text.end)
}
