//! The one public function of the program: a run of the words of its command line.
#![tactic(auto)]

ghost use Rattle.std.specs.Prelude.{◌≡◌, ◌↔◌, ◌⊎◌, ◌≤◌, ◌<◌, ℕ, List, IfSome, None, Some, false, true, map, string_bytes};
ghost use Rattle.list_model.specs.Command.{Requested, command_of, door_failed, get as get_of, no_memory, pack as pack_of, plan as plan_of, reads as reads_of, rehearse as rehearse_of, serve as serve_of, sink_failed, store_failed, turns as turns_of, usage};
ghost use Rattle.vod_source.specs.Causes.{Rose};
ghost use Rattle.origin_model.specs.Outcomes.{GetOutcome, settings_named, settings_reads};
ghost use Rattle.vod_turns.specs.Outcomes.{AreTurnedBy, IsServedBy};
ghost use Rattle.vod_app.specs.declared.words.Order.{Order};
ghost use Rattle.vod_app.specs.Commands.{opens_door, serving};
ghost use Rattle.vod_app.specs.Runs.{IsGet, IsPack, IsPlan, PackOutcome, PlanOutcome, TellsOutcome, outcome_of};
ghost use Rattle.vod_app.specs.ReadsRuns.{IsReads, ReadsOutcome};
ghost use Rattle.vod_app.specs.Rehearsals.{IsRehearsed, IsUnrefused, RehearsalOutcome};
ghost use Rattle.vod_app.specs.Services.{DoesBy, LogsSettings, ServiceOutcome, answers_with};

mod answers;
mod ends;
mod lines;
mod nowhere;
mod packs;
mod plans;
mod reads;
mod rehearsals;
mod requests;
mod serves;
mod settings;
mod watched;
mod words;

use ends::End;
use lines::tell;
use packs::pack;
use plans::plan;
use reads::reads;
use rehearsals::rehearse;
use requests::get;
use serves::{Done, serve};
use std::alloc::Global;
use std::string::String;
use vod_source::{Door, Sink, Store};
use words::Command;

/// How a run ended: the status of the program, and the store that it was given.
#[derive(Debug, Drop)]
pub struct Ended<S> {
    pub status: u8,
    pub store: S,
}

/// Runs the command that the words spell.
///
/// | words | what is written to `out` |
/// |---|---|
/// | `get ROOT SETTINGS PATH` | the answer of PATH |
/// | `plan ROOT SETTINGS PATH` | for each segment of the media playlist of PATH its number, start, length, video and audio samples |
/// | `reads ROOT SETTINGS PATH` | for each read that the answer of PATH makes its file, place and number of bytes |
/// | `pack ROOT SETTINGS PATH` | each name that the master playlist or media presentation description of PATH lists, with its answer |
/// | `serve ROOT SETTINGS ADDR COUNT` | nothing: COUNT connections to ADDR are served, one after another |
/// | `turns ROOT SETTINGS ADDR COUNT` | nothing: COUNT connections to ADDR, at most 64, are served in turns |
/// | `rehearse N` | one line on the film of N, which is made in memory, packed, and asked for segment by segment |
///
/// `get` answers every path of the grammar; `plan` answers media
/// playlists. Times are in 1/90000 s, and a line has one space between its numbers. `pack` writes a line `NAME LENGTH`, or
/// `NAME LENGTH cut 28 BadNal`, before the bytes of a name, and a line `NAME refused N WORD` for a name that is refused; before the
/// first list that is refused it ends.
///
/// | status | where | line on `err` |
/// |---|---|---|
/// | 0 | all done | none |
/// | 1 | the words are of no form | the usage line |
/// | 2 | the settings or the path are refused, or the body is cut by a bad sample | `refused N NAME` |
/// | 3 | the store failed | `store failed` |
/// | 4 | `out` failed | none |
/// | 5 | memory ran out | `no memory` |
/// | 6 | the door couldn't be opened or gave no further connection | `door failed` |
///
/// Each line ends with a line feed. A failure of `err` changes nothing. A store that fails while connections are served is
/// told to their peers, and doesn't end the command.
pub fn run<S: Store, D: Door, K: Sink, E: Sink>(
    alloc: Global,
    words: &[String],
    store: S,
    door: &mut D,
    out: &mut K,
    err: &mut E,
) -> Ended<S>
    // Status 1 is that of words that spell no command: nothing is written then, and the store is as it was.
    ensures usage { (result.status ≡ 1) ↔ (command_of (map string_bytes words.now) ≡ None) }
    ensures unused { result.status ≡ 1 → out.new ≡ out.old }
    ensures unread { result.status ≡ 1 → result.store ≡ store }

    // Only a command that serves connections opens the door, and it writes nothing to `out`.
    ensures door { opens_door (command_of (map string_bytes words.now)) ≡ false → door.new ≡ door.old }
    ensures served_unwritten { opens_door (command_of (map string_bytes words.now)) ≡ true → out.new ≡ out.old }

    // What `get` writes and reads, wherever the store tells its content.
    ensures get { IfSome (S.content store) (λ files. (q : Requested) → command_of (map string_bytes words.now) ≡ Some (get_of q) →
        GetOutcome files q result.status (K.written out.old) (K.written out.new) (S.log store) (S.log result.store)
        (E.written err.old) (E.written err.new) (E.faults err.old) (E.faults err.new)) }

    // `get` takes all memory before it writes.
    ensures get_memory { result.status ≡ 5 → (q : Requested) → command_of (map string_bytes words.now) ≡ Some (get_of q) →
        out.new ≡ out.old }

    // The same of `plan`.
    ensures plan { IfSome (S.content store) (λ files. (q : Requested) → command_of (map string_bytes words.now) ≡ Some (plan_of q) →
        PlanOutcome files q result.status (K.written out.old) (K.written out.new) (S.log store) (S.log result.store)
        (E.written err.old) (E.written err.new) (E.faults err.old) (E.faults err.new)) }

    // What `pack` writes.
    ensures pack { IfSome (S.content store) (λ files. (q : Requested) → command_of (map string_bytes words.now) ≡ Some (pack_of q) →
        PackOutcome files q result.status (K.written out.old) (K.written out.new)
        (E.written err.old) (E.written err.new) (E.faults err.old) (E.faults err.new)) }

    // What `reads` writes of the reads that it makes; of the store's own log it says nothing.
    ensures reads { IfSome (S.content store) (λ files. (q : Requested) → command_of (map string_bytes words.now) ≡ Some (reads_of q) →
        ReadsOutcome files q result.status (K.written out.old) (K.written out.new)
        (E.written err.old) (E.written err.new) (E.faults err.old) (E.faults err.new)) }

    // What `rehearse` writes. It asks nothing of the store.
    ensures rehearse { (n : ℕ) → command_of (map string_bytes words.now) ≡ Some (rehearse_of n) →
        RehearsalOutcome n result.status (K.written out.old) (K.written out.new) (E.written err.old) (E.written err.new) (E.faults err.old) (E.faults err.new) }
    ensures rehearsed_unread { (n : ℕ) → command_of (map string_bytes words.now) ≡ Some (rehearse_of n) → result.store ≡ store }

    // No number's film is refused: its line is written whole, or `out` or memory fails.
    ensures rehearsed_status { (n : ℕ) → command_of (map string_bytes words.now) ≡ Some (rehearse_of n) →
        (result.status ≡ 0) ⊎ ((result.status ≡ 4) ⊎ (result.status ≡ 5)) }

    // What `serve` does with the links of the door, and `turns`, wherever the store tells its content.
    ensures serve { IfSome (S.content store) (λ files. (root settings addr : List ℕ) (count : ℕ) → command_of (map string_bytes words.now) ≡ Some (serve_of root settings addr count) →
        ServiceOutcome (IsServedBy D.L.left D.L.written (settings_named files settings) (answers_with files root) count
        (record { coming = D.coming door.old; returned = D.returned door.old; out = D.out door.old })
        (record { coming = D.coming door.new; returned = D.returned door.new; out = D.out door.new })
        (S.faults store) (S.faults result.store)) (settings_reads files settings) result.status (S.log store) (S.log result.store)
        (E.written err.old) (E.written err.new) (E.faults err.old) (E.faults err.new)) }
    ensures turns { IfSome (S.content store) (λ files. (root settings addr : List ℕ) (count : ℕ) → command_of (map string_bytes words.now) ≡ Some (turns_of root settings addr count) →
        ServiceOutcome (AreTurnedBy D.L.left D.L.written (settings_named files settings) (answers_with files root) count
        (record { coming = D.coming door.old; returned = D.returned door.old; out = D.out door.old })
        (record { coming = D.coming door.new; returned = D.returned door.new; out = D.out door.new })
        (S.faults store) (S.faults result.store)) (settings_reads files settings) result.status (S.log store) (S.log result.store)
        (E.written err.old) (E.written err.new) (E.faults err.old) (E.faults err.new)) }

    // Every status has its line, whether the store tells its content or not.
    ensures told { TellsOutcome result.status (E.written err.old) (E.written err.new) (E.faults err.old) (E.faults err.new) }
    ensures statuses { result.status < 7 }
    ensures store_failed { result.status ≡ 3 → Rose (S.faults store) (S.faults result.store) }
    ensures sink_failed { result.status ≡ 4 → Rose (K.faults out.old) (K.faults out.new) }
    ensures door_failed { result.status ≡ 6 → Rose (D.faults door.old) (D.faults door.new) }

    // What stays, and counts that never fall.
    ensures content { S.content result.store ≡ S.content store }
    ensures out_kept { K.kept out.new ≡ K.kept out.old }
    ensures err_kept { E.kept err.new ≡ E.kept err.old }
    ensures store_later { S.faults store ≤ S.faults result.store }
    ensures out_later { K.faults out.old ≤ K.faults out.new }
    ensures err_later { E.faults err.old ≤ E.faults err.new }
    ensures door_later { D.faults door.old ≤ D.faults door.new }
{
    let Done { end, store } = run_command(alloc, words, store, door, out);
    tell(err, &end);
    let status = end.status();
    Ended { status, store }
}

// Runs the command that the words spell, but for the line that tells its end.
fn run_command<S: Store, D: Door, K: Sink>(
    alloc: Global,
    words: &[String],
    mut store: S,
    door: &mut D,
    out: &mut K,
) -> Done<S>
    ensures form { (outcome_of result.end ≡ usage) ↔ (command_of (map string_bytes words.now) ≡ None) }
    ensures unused { outcome_of result.end ≡ usage → out.new ≡ out.old }
    ensures unread { outcome_of result.end ≡ usage → result.store ≡ store }
    ensures door { opens_door (command_of (map string_bytes words.now)) ≡ false → door.new ≡ door.old }
    ensures served_unwritten { opens_door (command_of (map string_bytes words.now)) ≡ true → out.new ≡ out.old }
    ensures got { IfSome (S.content store) (λ files. (q : Requested) → command_of (map string_bytes words.now) ≡ Some (get_of q) →
        IsGet files q (outcome_of result.end) (K.written out.old) (K.written out.new) (S.log store) (S.log result.store)) }
    ensures got_memory { outcome_of result.end ≡ no_memory → (q : Requested) → command_of (map string_bytes words.now) ≡ Some (get_of q) →
        out.new ≡ out.old }
    ensures planned { IfSome (S.content store) (λ files. (q : Requested) → command_of (map string_bytes words.now) ≡ Some (plan_of q) →
        IsPlan files q (outcome_of result.end) (K.written out.old) (K.written out.new) (S.log store) (S.log result.store)) }
    ensures packed { IfSome (S.content store) (λ files. (q : Requested) → command_of (map string_bytes words.now) ≡ Some (pack_of q) →
        IsPack files q (outcome_of result.end) (K.written out.old) (K.written out.new)) }
    ensures read { IfSome (S.content store) (λ files. (q : Requested) → command_of (map string_bytes words.now) ≡ Some (reads_of q) →
        IsReads files q (outcome_of result.end) (K.written out.old) (K.written out.new)) }
    ensures rehearsed { (n : ℕ) → command_of (map string_bytes words.now) ≡ Some (rehearse_of n) →
        IsRehearsed n (outcome_of result.end) (K.written out.old) (K.written out.new) × (result.store ≡ store) }
    ensures unrefused { (n : ℕ) → command_of (map string_bytes words.now) ≡ Some (rehearse_of n) → IsUnrefused (outcome_of result.end) }
    ensures served { IfSome (S.content store) (λ files. (order : Order) (root settings addr : List ℕ) (count : ℕ) → command_of (map string_bytes words.now) ≡ Some (serving order root settings addr count) →
        DoesBy D.L.left D.L.written (settings_named files settings) (answers_with files root) count
        (record { coming = D.coming door.old; returned = D.returned door.old; out = D.out door.old })
        (record { coming = D.coming door.new; returned = D.returned door.new; out = D.out door.new })
        (S.faults store) (S.faults result.store) order (outcome_of result.end)
        × LogsSettings (settings_reads files settings) (outcome_of result.end) (S.log store) (S.log result.store)) }
    ensures content { S.content result.store ≡ S.content store }
    ensures kept { K.kept out.new ≡ K.kept out.old }
    ensures store_later { S.faults store ≤ S.faults result.store }
    ensures out_later { K.faults out.old ≤ K.faults out.new }
    ensures door_later { D.faults door.old ≤ D.faults door.new }
    ensures store_failed { outcome_of result.end ≡ store_failed → Rose (S.faults store) (S.faults result.store) }
    ensures sink_failed { outcome_of result.end ≡ sink_failed → Rose (K.faults out.old) (K.faults out.new) }
    ensures door_failed { outcome_of result.end ≡ door_failed → Rose (D.faults door.old) (D.faults door.new) }
{
    match Command::read(words) {
        Some(Command::Get(request)) => get(alloc, request, store, out),
        Some(Command::Plan(request)) => plan(alloc, request, store, out),
        Some(Command::Pack(request)) => {
            let end = pack(alloc, request, &mut store, out);
            Done { end, store }
        }
        Some(Command::Reads(request)) => reads(alloc, request, store, out),
        Some(Command::Serve(service)) => serve(alloc, service, store, door),
        Some(Command::Rehearse(n)) => {
            let end = rehearse(alloc, n, out);
            Done { end, store }
        }
        None => Done {
            end: End::Usage,
            store,
        },
    }
}
