// A rule as its profile's number, its count and 192 bytes, three for each of its 64 entries: the kind, then the operands, 0 where there is none.
ghost use Rattle.std.specs.Prelude.{◌≡◌, ◌≤◌, ◌<◌, length};
ghost use Rattle.calls.specs.ByteForm.{code_at, bytes_of, front, EncodedIs, RuleIs};

use meaning::Profile;
use rule::{Code, Formula, Rule};

fn code_at(bytes: &[u8], i: usize) -> Code
    requires { (length bytes.now ≡ 192) × (i < 64) }
    ensures { result ≡ code_at bytes.now i }
{
    Code {
        kind: bytes[3 * i],
        first: bytes[3 * i + 1],
        second: bytes[3 * i + 2],
    }
}

// The rule with this profile's number, this count and these bytes, if there is one.
#[tactic(auto, using(crate::specs::FormLaws::encodes_length), unfolding(rule::specs::Numbering::empty_in))]
fn encoded(profile: u8, count: usize, bytes: &[u8]) -> Option<Rule>
    ensures { EncodedIs profile count bytes.now result }
{
    let known = Profile::try_from(profile).ok()?;
    if bytes.len() != 192 {
        return None;
    }
    let mut rule = Rule::empty_in(known);
    rule.count = count;
    for i in 0..64 {
        rule.entries[i] = Formula::try_from(code_at(bytes, i)).ok()?;
    }
    Some(rule)
}

// The same, and where there is none the empty rule, which every call refuses as no rule: `RuleIs`, by which the calls' promises name their rule, says so.
pub(crate) fn rule_of(profile: u8, count: usize, bytes: &[u8]) -> Rule
    ensures { RuleIs profile count bytes.now result }
{
    encoded(profile, count, bytes).unwrap_or(Rule::empty())
}

// Writes the rule's bytes to the front of a buffer.
pub(crate) fn put_rule(rule: &Rule, out: &mut [u8])
    requires { 192 ≤ length out.old }
    ensures { out.new ≡ front (bytes_of rule.now.entries) out.old }
{
    for i in 0..64 {
        let code = Code::from(rule.entries[i]);
        out[3 * i..3 * i + 3].copy_from_slice(&[code.kind, code.first, code.second]);
    }
}
