// What a call leaves in the arrays that were lent to it.
ghost use Rattle.std.specs.Prelude.{◌≡◌, ◌≤◌, [], length, get_or, drop};
ghost use Rattle.octets.specs.Refusals.{number_of, refusal_of};
ghost use Rattle.packets.specs.Damage.{damage_or_0};
ghost use Rattle.arrays.specs.Arrays.{told, kept};
ghost use Rattle.exports.specs.Left.{left};

use arrays::{keep, put};
use octets::{Refusal, refusals};
use packets::Damage;

// The refusal of an array that is short.
pub(crate) const ROOM: u64 = refusals::ROOM as u64;

// The number of a refusal.
pub(crate) fn number(refusal: Refusal) -> u64
    ensures { result ≡ number_of refusal }
{
    refusal.number() as u64
}

// The number of what a call is refused for; 0 where it is not.
pub(crate) fn refusal_number<T: Copy>(answer: Result<T, Refusal>) -> u64
    ensures { result ≡ refusal_of answer }
{
    match answer {
        Err(refusal) => number(refusal),
        Ok(_) => 0,
    }
}

// The number of what is wrong with a header; 0 where nothing is.
pub(crate) fn damage_number(damage: Option<Damage>) -> u64
    ensures { result ≡ damage_or_0 damage }
{
    damage.map_or(0, |damage| damage.number() as u64)
}

// Writes an answer whose numbers stand behind its refusal, and hands the refusal on.
pub(crate) fn tell(answer: &mut [u64], said: &[u64]) -> u64
    requires { 1 ≤ length said.now }
    ensures { (result ≡ get_or said.now 0 0) × (answer.new ≡ told answer.old (drop 1 said.now)) }
{
    put(answer, &said[1..]);
    said[0]
}

// Leaves what a call with a record answered: its answer, and the record's numbers where it is not refused.
pub(crate) fn leave(record: &mut [u64], state: &[u64], answer: &mut [u64], said: &[u64]) -> u64
    requires { 1 ≤ length said.now }
    ensures { left result «record».new [] answer.new ≡ left (get_or said.now 0 0) (kept (get_or said.now 0 0) «record».old state.now) [] (told answer.old (drop 1 said.now)) }
{
    keep(record, said[0], state);
    tell(answer, said)
}
