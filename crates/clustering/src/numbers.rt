//! The two numbers of a job that say how its group is cut.

ghost use Rattle.std.specs.Prelude.{◌≡◌, ◌<◌, ◌≤◌, length, IfSome, option_and_then, option_map};
ghost use Rattle.std.specs.Option.{option_or};
ghost use Rattle.clustering.specs.code.Numbers.{bad_key_by, is_bad};
ghost use Rattle.clustering.specs.Numbers.{cluster_num_by, positive_number_in, numbers_by, cluster_size_by, value_from};

use transformation_catalog::TransformationEntry;
use values::Text;
use workflow_core::Job;

/// Numbers of at least 1, where they are stated.
#[derive(Clone, Copy, PartialEq, Eq)]
pub struct Numbers {
    pub num: Option<u32>,
    pub size: Option<u32>,
}

#[tactic(auto, using(crate::proofs::NumbersLemmas::small))]
fn value_of(digits: &[u8]) -> Option<u32>
    requires few { length digits.now ≤ 5 }
    ensures { result ≡ value_from 0 digits.now }
{
    let mut value = 0;
    for digit in digits {
        if *digit < b'0' || *digit > b'9' {
            return None;
        }
        value = value * 10 + u32::from(*digit - b'0');
    }
    Some(value)
}

/// A number of one to five digits, unless it is zero.
fn number_in(text: &Text) -> Option<u32>
    ensures number { result ≡ positive_number_in text.now }
    ensures positive { IfSome result (λ n. 0 < n) }
{
    let digits = text.as_bytes();
    if digits.is_empty() || digits.len() > 5 {
        return None;
    }
    match value_of(digits) {
        Some(value) => { if value == 0 { None } else { Some(value) } }
        None => None,
    }
}

/// The number of a text, if there is one.
fn stated(text: Option<&Text>) -> Option<u32>
    ensures number { result ≡ option_and_then positive_number_in (option_map (λ t. t.now) text.entry) }
    ensures positive { IfSome result (λ n. 0 < n) }
{
    match text {
        Some(text) => number_in(text),
        None => None,
    }
}

fn is_bad(text: Option<&Text>) -> bool
    ensures { result ≡ is_bad (option_map (λ t. t.now) text.entry) }
{
    match text {
        Some(text) => number_in(text).is_none(),
        None => false,
    }
}

fn own_or<'a>(own: &'a Option<Text>, other: Option<&'a Text>) -> Option<&'a Text>
    ensures { option_map (λ t. t.now) result ≡ option_or own.now (option_map (λ t. t.now) other.entry) }
{
    match own {
        Some(text) => Some(text),
        None => other,
    }
}

fn num_of<'a>(job: &'a Job, found: Option<&'a TransformationEntry>) -> Option<&'a Text>
    ensures { option_map (λ t. t.now) result ≡ cluster_num_by (option_map (λ e. e.now) found.entry) job.now }
{
    match found {
        Some(entry) => own_or(&job.cluster_num, entry.cluster_num.as_ref()),
        None => own_or(&job.cluster_num, None),
    }
}

fn size_of<'a>(job: &'a Job, found: Option<&'a TransformationEntry>) -> Option<&'a Text>
    ensures { option_map (λ t. t.now) result ≡ cluster_size_by (option_map (λ e. e.now) found.entry) job.now }
{
    match found {
        Some(entry) => own_or(&job.cluster_size, entry.cluster_size.as_ref()),
        None => own_or(&job.cluster_size, None),
    }
}

/// The numbers of a job whose transformation has this entry.
pub fn numbers_of(job: &Job, found: Option<&TransformationEntry>) -> Numbers
    ensures numbers { result ≡ numbers_by (option_map (λ e. e.now) found.entry) job.now }
    ensures positive { IfSome result.num (λ n. 0 < n) }
{
    Numbers {
        num: stated(num_of(job, found)),
        size: stated(size_of(job, found)),
    }
}

/// The key of a job's first number that is none.
pub fn bad_key(job: &Job, found: Option<&TransformationEntry>) -> Option<&'static str>
    ensures { option_map (λ k. k.now) result ≡ bad_key_by (option_map (λ e. e.now) found.entry) job.now }
{
    if is_bad(num_of(job, found)) {
        return Some("clusters.num");
    }
    if is_bad(size_of(job, found)) {
        return Some("clusters.size");
    }
    None
}
