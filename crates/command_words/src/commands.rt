//! The commands, and the table of their words.

ghost use Rattle.std.specs.Prelude.{◌≡◌, IfSome, option_map};
ghost use Rattle.command_words.specs.code.Words.{AreFew, HasImages, HasImagesBy, one_word as of_one, quick_in, quick_of, said_of, threaded_members, threaded_of, two_words as of_two};
ghost use Rattle.command_words.specs.Words.{by_workers as of_workers, threaded_in};

use crate::numbers::{images_in, workers_in};
use crate::said::Said;

/// What starts no thread and waits for nobody, with what its words say.
#[derive(Clone, Copy)]
pub enum Quick<'a> {
    /// Reads the workflow of a request.
    Check(&'a str),
    /// Plans the workflow of a request.
    Plan(&'a str),
    /// Evaluates the workflow of a request.
    Eval(&'a str),
    /// Runs the plan of a request with one worker.
    Alone(&'a str),
    /// Judges a record by the plan of a request.
    Audit(&'a str, &'a str),
    /// Sums up a record by the plan of a request.
    Stat(&'a str, &'a str),
    /// Goes on with the run of a request's plan from its record, with one worker.
    Resume(&'a str, &'a str),
    /// Runs the plan of a request with one worker, and catalogues what it delivers.
    Produce(&'a str),
    /// Schedules the workflow of a request.
    Schedule(&'a str),
    /// Joins the workflows of an ensemble, and runs their plan with one worker.
    Ensemble(&'a str),
    /// Runs the plan of a workflow over so many images with one worker.
    Rehearse(u32),
}

/// What may start threads and wait, with what its words say, and how many workers.
#[derive(Clone, Copy)]
pub enum Threaded<'a> {
    /// Runs the plan of a request with so many workers.
    Run(&'a str, u32),
    /// Joins the workflows of an ensemble, and runs their plan with so many workers.
    Ensemble(&'a str, u32),
    /// Runs the plan of a workflow over so many images, the first number, with so many workers.
    Rehearse(u32, u32),
}

fn one_word<'a>(word: &str, a: &'a str) -> Option<Quick<'a>>
    ensures is { option_map quick_of result ≡ of_one word.now a.now }
    ensures images { IfSome result (λ c. HasImages (quick_of c)) }
{
    match word {
        "check" => Some(Quick::Check(a)),
        "plan" => Some(Quick::Plan(a)),
        "eval" => Some(Quick::Eval(a)),
        "alone" => Some(Quick::Alone(a)),
        "produce" => Some(Quick::Produce(a)),
        "schedule" => Some(Quick::Schedule(a)),
        "ensemble" => Some(Quick::Ensemble(a)),
        "rehearse" => match images_in(a.as_bytes()) {
            Some(images) => Some(Quick::Rehearse(images)),
            None => None,
        },
        _ => None,
    }
}

fn two_words<'a>(word: &str, a: &'a str, b: &'a str) -> Option<Quick<'a>>
    ensures is { option_map quick_of result ≡ of_two word.now a.now b.now }
    ensures images { IfSome result (λ c. HasImages (quick_of c)) }
{
    match word {
        "audit" => Some(Quick::Audit(a, b)),
        "stat" => Some(Quick::Stat(a, b)),
        "resume" => Some(Quick::Resume(a, b)),
        _ => None,
    }
}

/// The command without threads of what words say.
pub(crate) fn find_quick<'a>(said: Said<'a>) -> Option<Quick<'a>>
    ensures is { option_map quick_of result ≡ quick_in (said_of said.entry) }
    ensures images { IfSome result (λ c. HasImages (quick_of c)) }
{
    match said {
        Said::One(word, a) => one_word(word, a),
        Said::Two(word, a, b) => two_words(word, a, b),
        Said::WithWorkers(_, _, _) => None,
    }
}

fn by_workers<'a>(word: &str, a: &'a str, workers: u32) -> Option<Threaded<'a>>
    requires { AreFew workers }
    ensures is { option_map threaded_of result ≡ of_workers word.now a.now workers }
    ensures few { IfSome result (λ c. AreFew (threaded_members (threaded_of c))) }
    ensures images { IfSome result (λ c. HasImagesBy (threaded_of c)) }
{
    match word {
        "run" => Some(Threaded::Run(a, workers)),
        "ensemble" => Some(Threaded::Ensemble(a, workers)),
        "rehearse" => match images_in(a.as_bytes()) {
            Some(images) => Some(Threaded::Rehearse(images, workers)),
            None => None,
        },
        _ => None,
    }
}

/// The command by workers of what words say.
pub(crate) fn find_threaded<'a>(said: Said<'a>) -> Option<Threaded<'a>>
    ensures is { option_map threaded_of result ≡ threaded_in (said_of said.entry) }
    ensures few { IfSome result (λ c. AreFew (threaded_members (threaded_of c))) }
    ensures images { IfSome result (λ c. HasImagesBy (threaded_of c)) }
{
    match said {
        Said::WithWorkers(word, a, digits) => match workers_in(digits) {
            Some(workers) => by_workers(word, a, workers),
            None => None,
        },
        _ => None,
    }
}
