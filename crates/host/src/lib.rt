//! The calls of a host program in C: on byte slices, each answered by one 64-bit number.
#![tactic(auto)]

ghost use Rattle.std.specs.Prelude.{◌≡◌, ◌*◌, ◌≤◌, length};
ghost use Rattle.std.proofs.lemmas.List.Edits.{sets};
ghost use Rattle.refusals.specs.Table.{answer_word};
ghost use Rattle.refusals.specs.Output.{leaves};
ghost use Rattle.numbers.specs.Reading.{bytes_of_all};
ghost use Rattle.runs.specs.Run.{four_answer, four_log};
ghost use Rattle.host.specs.Entries.{four, JudgesBytes};

use placing::MOST_READS;
use refusals::Answer;

/// Runs a move file into a lent log, and answers the word of what `runner::run` answers. A refusal
/// leaves the log as it was.
#[unsafe(no_mangle)]
pub extern "C" fn kantsufel_run(moves: &[u8], log: &mut [u8]) -> u64
    ensures word { result ≡ answer_word (four_answer moves.now log.old) }
    ensures left { log.new ≡ leaves (four_answer moves.now log.old) log.old 0 (four_log moves.now) }
{
    let answer = runner::run(moves, log);
    refusals::answer_word(answer)
}

// Stores entries at the front of an output, four bytes each, lowest first.
fn store_entries(out: &mut [u8], entries: &[u32])
    requires { 4 * length entries.now ≤ length out.old }
    ensures { out.new ≡ sets out.old 0 (bytes_of_all four entries.now) }
{
    for (i, &entry) in entries.iter().enumerate() {
        out[4 * i..4 * i + 4].copy_from_slice(&entry.to_le_bytes());
    }
}

/// Judges a log into lent entries of four bytes, lowest first, and answers the word of what
/// `placing::judge` answers with room for as many entries as the bytes hold whole. A refusal leaves
/// the bytes as they were.
#[unsafe(no_mangle)]
pub extern "C" fn kantsufel_judge(log: &[u8], entries: &mut [u8]) -> u64
    ensures { JudgesBytes log.now entries.old result entries.new }
{
    // No heap, and no log needs more entries.
    let mut placed = [0u32; MOST_READS];
    let room = MOST_READS.min(entries.len() / 4);
    let answer = placing::judge(log, &mut placed[..room]);
    if let Ok(place) = answer {
        store_entries(entries, &placed[..place as usize]);
    }
    refusals::answer_word(answer)
}
