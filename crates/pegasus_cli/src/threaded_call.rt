//! The call that the program makes.

ghost use Rattle.std.specs.Prelude.{◌≡◌, drop, false, length, map as list_map, string_bytes, true};
ghost use Rattle.craft.specs.declared.crew.Crew.{Crew};
ghost use Rattle.command_words.specs.code.Words.{command, is_threaded, members_of};
ghost use Rattle.pegasus_cli.specs.code.Call.{IsAnswered};
ghost use Rattle.pegasus_cli.specs.Headline.{HoldsOf};
ghost use Rattle.pegasus_cli.specs.code.Joint.{JointHoldsOf};
ghost use Rattle.pegasus_cli.specs.code.Moments.{call_of, objects};

use crate::call::{answer, quick, refuse_words};
use crate::outcome::Outcome;
use command_words::{threaded, threaded_command};
use craft::{Crew, Gate};
use outside::{Docs, Host, Memory, Sink, Tool};
use pegasus_commands::work_in_threads;
use plan_run::runs_finish;
use resume_run::resumes_finish;
use std::alloc::Global;
use std::sync::Wait;
use std::thread::Threads;

/// Does what words say that may start threads, with as many members of the crew as there are to be workers.
fn in_threads<
    R: Threads + Wait + Sync,
    D: Docs,
    K: Sink,
    H: Host + Send,
    T: Tool + Send,
    G: Gate + Send,
>(
    rt: &R,
    alloc: Global,
    words: &[String],
    docs: &mut D,
    out: &mut K,
    host: H,
    crew: Vec<Crew<T, G>>,
) -> (Outcome, H, Vec<Crew<T, G>>)
where
    H::Reading: Send,
    H::Draft: Send,
    requires crew { length crew.items ≡ 16 }
    requires words { is_threaded (list_map string_bytes words.now) ≡ true }
    ensures answered { IsAnswered (call_of D.Docs K.Sink H.Host T.Tool G.Gate
        (list_map string_bytes words.now)
        (objects docs.old out.old host crew.items)
        (objects docs.new out.new result.1 result.2.items)) result.0 }
    ensures crew { length result.2.items ≡ 16 }
    ensures others { let used = members_of (command (list_map string_bytes words.now)) in
        drop used result.2.items ≡ drop used crew.items }
{
    // Laws for the proof: they do nothing.
    runs_finish();
    resumes_finish();
    let mut crew = crew;
    match threaded_command(alloc, words) {
        Ok(Some(command)) => {
            let worked = work_in_threads(rt, alloc, command, docs, host, &mut crew);
            let outcome = answer(alloc, out, worked.told, true);
            (outcome, worked.host, crew)
        }
        Ok(None) => (refuse_words(alloc, out), host, crew),
        Err(Memory) => (Outcome::Memory, host, crew),
    }
}

/// Does what the words say and writes what came of it. A run starts a thread for each worker and joins them all before
/// it returns; it doesn't promise to end. All other words are those of [`quick`].
pub fn pegasus<
    R: Threads + Wait + Sync,
    D: Docs,
    K: Sink,
    H: Host + Send,
    T: Tool + Send,
    G: Gate + Send,
>(
    rt: &R,
    alloc: Global,
    words: &[String],
    docs: &mut D,
    out: &mut K,
    host: H,
    crew: Vec<Crew<T, G>>,
) -> (Outcome, H, Vec<Crew<T, G>>)
where
    H::Reading: Send,
    H::Draft: Send,
    requires { length crew.items ≡ 16 }
    ensures answered { IsAnswered (call_of D.Docs K.Sink H.Host T.Tool G.Gate
        (list_map string_bytes words.now)
        (objects docs.old out.old host crew.items)
        (objects docs.new out.new result.1 result.2.items)) result.0 }
    ensures headline { HoldsOf (call_of D.Docs K.Sink H.Host T.Tool G.Gate (list_map string_bytes words.now)
        (objects docs.old out.old host crew.items)
        (objects docs.new out.new result.1 result.2.items)) result.0 }
    ensures joint { JointHoldsOf (call_of D.Docs K.Sink H.Host T.Tool G.Gate (list_map string_bytes words.now)
        (objects docs.old out.old host crew.items)
        (objects docs.new out.new result.1 result.2.items)) result.0 }
    ensures crew { length result.2.items ≡ 16 }
    ensures others { let used = members_of (command (list_map string_bytes words.now)) in
        drop used result.2.items ≡ drop used crew.items }
    ensures gates { is_threaded (list_map string_bytes words.now) ≡ false
        → list_map (λ (c : Crew T G). G.asked c.gate) result.2.items
        ≡ list_map (λ (c : Crew T G). G.asked c.gate) crew.items }
{
    if threaded(words) {
        in_threads(rt, alloc, words, docs, out, host, crew)
    } else {
        quick(alloc, words, docs, out, host, crew)
    }
}
