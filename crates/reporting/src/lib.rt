// The answers of two heads with one allowance, and their reports in a list.
#![tactic(auto)]

ghost use Rattle.std.specs.Prelude.{◌≡◌, ◌+◌, ◌≤◌, length};
ghost use Rattle.words.specs.Words.{stored};
ghost use Rattle.decoding.specs.Frames.{memory};
ghost use Rattle.decoding.specs.Pairing.Pairs.{heads_lent};
ghost use Rattle.interface.specs.Pairs.{party_number, pack_refused, RefusesShort, ReportsPair};

use decoding::{Heads, Party, Room};
use refusals::Refusal;

// The number of whose a refusal is.
pub fn party_number(party: Party) -> u64
    ensures { result ≡ party_number party }
{
    party as u64
}

// A refusal and whose it is as one number.
pub fn pack_refused(party: Party, refusal: Refusal) -> u64
    ensures { result ≡ pack_refused party refusal }
{
    u64::from(refusal.numbered().number) + 256 * party_number(party)
}

// Puts a number into the eight bytes from byte k on.
pub fn put_number(list: &mut [u8], k: usize, x: u64)
    requires { k + 8 ≤ length list.old }
    ensures { list.new ≡ stored 8 list.old k x }
{
    words::store32(list, k, (x % 4294967296) as u32);
    words::store32(list, k + 4, (x / 4294967296) as u32);
}

// What is refused of a pair whose list of reports is too short: nothing is decoded.
pub fn refuse_short(heads: Heads, degrees: &mut [u8], first_room: Room, second_room: Room) -> u64
    ensures { RefusesShort (heads_lent heads.entry) first_room second_room degrees.old degrees.new result }
{
    match pairing::accept(heads, degrees, first_room, second_room) {
        Err((party, refusal)) => pack_refused(party, refusal),
        Ok(_) => pack_refused(Party::Pair, Refusal::Buffer),
    }
}

// Decodes a pair and puts its reports into the lent list, which is long enough.
pub fn decode_reported(
    heads: Heads,
    degrees: &mut [u8],
    first_levels: &mut [u8],
    first_variable_messages: &mut [u8],
    first_check_messages: &mut [u8],
    first_sums: &mut [u8],
    first_bits: &mut [u8],
    second_levels: &mut [u8],
    second_variable_messages: &mut [u8],
    second_check_messages: &mut [u8],
    second_sums: &mut [u8],
    second_bits: &mut [u8],
    reports: &mut [u8],
) -> u64
    requires { 16 ≤ length reports.old }
    ensures { ReportsPair (heads_lent heads.entry) (memory first_levels.old first_variable_messages.old first_check_messages.old first_sums.old first_bits.old) (memory first_levels.new first_variable_messages.new first_check_messages.new first_sums.new first_bits.new) (memory second_levels.old second_variable_messages.old second_check_messages.old second_sums.old second_bits.old) (memory second_levels.new second_variable_messages.new second_check_messages.new second_sums.new second_bits.new) degrees.old degrees.new reports.old reports.new result }
{
    let answer = pairing::decode(
        heads,
        degrees,
        first_levels,
        first_variable_messages,
        first_check_messages,
        first_sums,
        first_bits,
        second_levels,
        second_variable_messages,
        second_check_messages,
        second_sums,
        second_bits,
    );
    match answer {
        Err((party, refusal)) => pack_refused(party, refusal),
        Ok((first, second)) => {
            let a = packing::pack_decoded(Ok(first));
            let b = packing::pack_decoded(Ok(second));
            put_number(reports, 0, a);
            put_number(reports, 8, b);
            0
        }
    }
}
