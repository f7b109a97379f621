//! The call for words that start no thread.

ghost use Rattle.std.specs.Prelude.{◌≡◌, ◌++◌, drop, false, length, map as list_map, string_bytes};
ghost use Rattle.craft.specs.declared.crew.Crew.{Crew};
ghost use Rattle.command_words.specs.code.Words.{command, is_threaded, members_of};
ghost use Rattle.pegasus_cli.specs.declared.outcome.Outcome.TheVariants.{Usage as IsNoCommand};
ghost use Rattle.pegasus_cli.specs.code.Call.{Ends, IsAnswered};
ghost use Rattle.pegasus_cli.specs.code.Moments.{call_of, objects, sink_moment, writing};
ghost use Rattle.pegasus_cli.specs.code.Outcome.{IsAnswer, closing, line_of, outcome_of};

use crate::outcome::{Outcome, of_answer, push_closing};
use command_words::quick_command;
use craft::{Crew, Gate};
use outside::{Docs, Host, Memory, Sink, SinkFault, Tool, write_all};
use pegasus_commands::{Told, has_line, work};
use plan_run::runs_finish;
use resume_run::resumes_finish;
use std::alloc::Global;

/// Writes the text and the line that closes it, and tells how the call ends.
#[tactic(auto, using(crate::proofs::CallLemmas::ends_as))]
fn finish<K: Sink>(
    alloc: Global,
    out: &mut K,
    text: Vec<u8>,
    lined: bool,
    answer: Outcome,
) -> Outcome
    requires { IsAnswer answer }
    ensures { Ends (writing (sink_moment K.Sink out.old) (sink_moment K.Sink out.new))
        (text.items ++ closing lined answer) answer result }
{
    if let Outcome::Memory = answer {
        return answer;
    }
    let mut text = text;
    match push_closing(alloc, &mut text, lined, &answer) {
        Ok(()) => {}
        Err(Memory) => {
            drop(answer);
            return Outcome::Memory;
        }
    }
    match write_all(out, &text) {
        Ok(()) => answer,
        Err(SinkFault::Failed) => {
            drop(answer);
            Outcome::SinkFailed
        }
    }
}

/// Writes what a command tells, with the line of its answer or, where it is done, perhaps without.
pub(crate) fn answer<K: Sink>(alloc: Global, out: &mut K, told: Told, lined: bool) -> Outcome
    ensures { Ends (writing (sink_moment K.Sink out.old) (sink_moment K.Sink out.new))
        (told.text.items ++ closing lined (outcome_of told.answer)) (outcome_of told.answer) result }
{
    finish(alloc, out, told.text, lined, of_answer(told.answer))
}

/// Writes that the words are no command.
pub(crate) fn refuse_words<K: Sink>(alloc: Global, out: &mut K) -> Outcome
    ensures { Ends (writing (sink_moment K.Sink out.old) (sink_moment K.Sink out.new))
        (line_of IsNoCommand) IsNoCommand result }
{
    finish(alloc, out, Vec::new(alloc), true, Outcome::Usage)
}

/// Does what words say that start no thread, and writes what came of it; it waits for nobody, and asks no gate, but tells
/// it what its worker adds to a record. It works with the first member of the crew, and with each of them where it goes
/// on from a record.
pub fn quick<D: Docs, K: Sink, H: Host, T: Tool, G: Gate>(
    alloc: Global,
    words: &[String],
    docs: &mut D,
    out: &mut K,
    host: H,
    crew: Vec<Crew<T, G>>,
) -> (Outcome, H, Vec<Crew<T, G>>)
    requires crew { length crew.items ≡ 16 }
    requires words { is_threaded (list_map string_bytes words.now) ≡ false }
    ensures answered { IsAnswered (call_of D.Docs K.Sink H.Host T.Tool G.Gate
        (list_map string_bytes words.now)
        (objects docs.old out.old host crew.items)
        (objects docs.new out.new result.1 result.2.items)) result.0 }
    ensures crew { length result.2.items ≡ 16 }
    ensures others { let used = members_of (command (list_map string_bytes words.now)) in
        drop used result.2.items ≡ drop used crew.items }
    ensures gates { list_map (λ (c : Crew T G). G.asked c.gate) result.2.items
        ≡ list_map (λ (c : Crew T G). G.asked c.gate) crew.items }
{
    // Laws for the proof: they do nothing.
    runs_finish();
    resumes_finish();
    let mut crew = crew;
    match quick_command(alloc, words) {
        Ok(Some(command)) => {
            let worked = work(alloc, command, docs, host, &mut crew);
            let outcome = answer(alloc, out, worked.told, has_line(command));
            (outcome, worked.host, crew)
        }
        Ok(None) => (refuse_words(alloc, out), host, crew),
        Err(Memory) => (Outcome::Memory, host, crew),
    }
}
