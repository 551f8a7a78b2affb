// Calls between a text and its rule.
ghost use Rattle.laws.specs.Decided.{Decides};
ghost use Rattle.calls.specs.Promises.{read_slots, NoRoom, ReadCall, PrintCall};

use super::form::{put_rule, rule_of};
use answers::Refusal;
use meaning::Profile;

// Whether a slice of this length is too short for a rule's bytes. Under a number that no profile has this is not asked.
fn lacks_room(profile: u8, length: usize) -> bool
    ensures { Decides result (NoRoom profile length) }
{
    length < 192 && Profile::try_from(profile).is_ok()
}

// Reads a text under the profile with this number: 0 with the rule's count and its bytes; or 12, or 1 to 5, with the place and the number of what is
// wanted there, 0 where nothing is said; between 12 and those 8, for fewer than 192 bytes. Of what is lent, the rest is as it was, with 8 all.
pub fn hourcricket_read(
    profile: u8,
    text: &[u8],
    count: &mut usize,
    bytes: &mut [u8],
    place: &mut usize,
    wanted: &mut u8,
) -> u8
    ensures { ReadCall profile text.now (read_slots count.old bytes.old place.old wanted.old) result (read_slots count.new bytes.new place.new wanted.new) }
{
    if lacks_room(profile, bytes.len()) {
        return u8::from(Refusal::ShortSlice);
    }
    match reading::read(profile, text) {
        Ok(rule) => {
            *count = rule.count;
            put_rule(&rule, bytes);
            0
        }
        Err(refusal) => {
            *place = refusal.place().0;
            *wanted = refusal.wanted_number();
            refusal.number()
        }
    }
}

// Writes the text of the rule to the front of the buffer: 0 with its length, or 6, 8 for fewer than 1,024 bytes, 7, and all as it was.
pub fn hourcricket_print(
    profile: u8,
    count: usize,
    bytes: &[u8],
    out: &mut [u8],
    length: &mut usize,
) -> u8
    ensures { PrintCall profile count bytes.now out.old length.old result out.new length.new }
{
    match printing::print(&rule_of(profile, count, bytes), out) {
        Ok(size) => {
            *length = size;
            0
        }
        Err(refusal) => u8::from(refusal),
    }
}
