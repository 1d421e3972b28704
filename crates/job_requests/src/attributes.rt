//! The attributes of S14F9 (SEMI E94, S14F9).

ghost use Rattle.std.specs.Prelude.{◌≡◌, IfOk, is_some, option_map, option_and_then, unwrap_or, [], length, filter};
ghost use Rattle.std.specs.List.{list_all, list_any};
ghost use Rattle.item_model.specs.Data.{list};
ghost use Rattle.item_model.specs.View.{view, items_of};
ghost use Rattle.message_model.specs.Bodies.{all_of, each, flag, text};
ghost use Rattle.job_requests.specs.Forms.{job_form};
ghost use Rattle.request_model.specs.Attributes.{has_name, is_offered, value_of, is_given_once, job_with_more, named_jobs, is_well_formed, is_each_once, are_taken, object_id, processing_control, start_method, object_named, jobs_named, starts_itself};

use gem_ids::{Listed, Text80};
use item_model::Item;
use message_model::NamedValue;
use std::alloc::{AllocError, Global};

// The form in which the process jobs are named: each by its name alone, or by a list that begins with it.
#[derive(Clone, Copy)]
enum JobForm {
    Alone,
    WithMore,
}

// ---- what is given

// Whether each attribute is one that there is, is given once, and has a value of its form where it is read.
pub(crate) fn are_taken(attributes: &[NamedValue]) -> bool
    ensures { result ≡ are_taken attributes.now }
{
    are_offered(attributes)
        && is_each_once(attributes)
        && is_text_or_none(value_of(attributes, b"ObjID"))
        && are_jobs_or_none(value_of(attributes, b"ProcessingCtrlSpec"))
        && is_flag_or_none(value_of(attributes, b"StartMethod"))
}

// The name of the control job; empty where none is given, or where it is given twice or isn't text.
pub(crate) fn object_named(attributes: &[NamedValue]) -> Text80
    ensures { result ≡ object_named attributes.now }
{
    if !is_given_once(attributes, b"ObjID") {
        return Text80::empty();
    }
    match value_of(attributes, b"ObjID") {
        Some(item) => text_of(item).unwrap_or(Text80::empty()),
        None => Text80::empty(),
    }
}

// The process jobs that it names.
pub(crate) fn jobs_named(
    alloc: Global,
    attributes: &[NamedValue],
) -> Result<Listed<Text80>, AllocError>
    ensures { IfOk result (λ jobs. jobs ≡ jobs_named attributes.now) }
{
    match value_of(attributes, b"ProcessingCtrlSpec") {
        Some(item) => jobs_of(alloc, item),
        None => Ok(Listed::new(alloc)),
    }
}

// Whether it starts by itself.
pub(crate) fn starts_itself(attributes: &[NamedValue]) -> bool
    ensures { result ≡ starts_itself attributes.now }
{
    match value_of(attributes, b"StartMethod") {
        Some(item) => flag_of(item).unwrap_or(true),
        None => true,
    }
}

// ---- attributes

// Whether an attribute has this name.
fn has_name(attribute: &NamedValue, name: &[u8]) -> bool
    ensures { result ≡ has_name name.now attribute.now }
{
    attribute.name().as_bytes() == name
}

// Whether a name is one of an attribute.
fn is_offered(name: Text80) -> bool
    ensures { result ≡ is_offered name }
{
    let name = name.as_bytes();
    name == b"ObjID".as_slice()
        || name == b"ProcessingCtrlSpec".as_slice()
        || name == b"StartMethod".as_slice()
        || name == b"CarrierInputSpec".as_slice()
        || name == b"MtrlOutSpec".as_slice()
        || name == b"MtrlOutByStatus".as_slice()
        || name == b"PauseEvent".as_slice()
        || name == b"ProcessOrderMgmt".as_slice()
        || name == b"DataCollectionPlan".as_slice()
}

// Whether each attribute is one that there is.
fn are_offered(attributes: &[NamedValue]) -> bool
    ensures { result ≡ list_all (λ a. is_offered a.0) attributes.now }
{
    attributes
        .iter()
        .all(|attribute| is_offered(attribute.name()))
}

// Whether one of these has this name.
fn is_any_named(attributes: &[NamedValue], name: Text80) -> bool
    ensures { result ≡ list_any (has_name name) attributes.now }
{
    attributes
        .iter()
        .any(|attribute| has_name(attribute, name.as_bytes()))
}

// Whether each name is given once.
fn is_each_once(attributes: &[NamedValue]) -> bool
    ensures { result ≡ is_each_once attributes.now }
{
    let mut left = attributes;
    while let [first, rest @ ..] = left {
        if is_any_named(rest, first.name()) {
            return false;
        }
        left = rest;
    }
    true
}

// The first value that is given under a name.
fn value_of<'a>(attributes: &'a [NamedValue], name: &[u8]) -> Option<&'a Item>
    ensures { option_map (λ i. view i.now) result ≡ value_of name.now attributes.now }
{
    match attributes
        .iter()
        .find(|attribute| has_name(attribute, name))
    {
        Some(attribute) => Some(attribute.item()),
        None => None,
    }
}

// Whether one value is given under a name.
fn is_given_once(attributes: &[NamedValue], name: &[u8]) -> bool
    ensures { result ≡ is_given_once name.now attributes.now }
{
    times_given(attributes, name) == 1
}

// How many values are given under a name.
fn times_given(attributes: &[NamedValue], name: &[u8]) -> usize
    ensures { result ≡ length (filter (has_name name.now) attributes.now) }
{
    attributes
        .iter()
        .filter(|attribute| has_name(attribute, name))
        .count()
}

// ---- values

// The text of an item.
fn text_of(item: &Item) -> Option<Text80>
    ensures { result ≡ text (view item.now) }
{
    match item {
        Item::Ascii(bytes) => match Text80::read(bytes.as_slice()) {
            Ok(text) => Some(text),
            Err(_) => None,
        },
        _ => None,
    }
}

// The truth of an item.
fn flag_of(item: &Item) -> Option<bool>
    ensures { result ≡ flag (view item.now) }
{
    match item {
        Item::Bool(truths) => match truths.as_slice() {
            [truth] => Some(*truth),
            _ => None,
        },
        _ => None,
    }
}

// Whether a value is text, or there is none.
fn is_text_or_none(item: Option<&Item>) -> bool
    ensures { result ≡ is_well_formed text (option_map (λ i. view i.now) item.entry) }
{
    match item {
        Some(item) => text_of(item).is_some(),
        None => true,
    }
}

// Whether a value is a truth, or there is none.
fn is_flag_or_none(item: Option<&Item>) -> bool
    ensures { result ≡ is_well_formed flag (option_map (λ i. view i.now) item.entry) }
{
    match item {
        Some(item) => flag_of(item).is_some(),
        None => true,
    }
}

// Whether a value names process jobs, or there is none.
fn are_jobs_or_none(item: Option<&Item>) -> bool
    ensures { result ≡ is_well_formed named_jobs (option_map (λ i. view i.now) item.entry) }
{
    match item {
        Some(item) => are_jobs(item),
        None => true,
    }
}

// ---- process jobs

// The process job that an item names.
fn job_of(form: JobForm, item: &Item) -> Option<Text80>
    ensures { result ≡ job_form form (view item.now) }
{
    match form {
        JobForm::Alone => text_of(item),
        JobForm::WithMore => job_with_more(item),
    }
}

// The process job of a list of it and two more.
fn job_with_more(item: &Item) -> Option<Text80>
    ensures { result ≡ job_with_more (view item.now) }
{
    match item {
        Item::List(items) => first_of_three(items.as_slice()),
        _ => None,
    }
}

// The process job that the first of three items names.
#[tactic(auto, using(crate::proofs::Parts::more_met, crate::proofs::Parts::more_unmet))]
fn first_of_three(items: &[Item]) -> Option<Text80>
    ensures { result ≡ job_with_more (list (items_of items.now)) }
{
    if items.len() == 3 {
        text_of(&items[0])
    } else {
        None
    }
}

// Whether an item is a list of process jobs.
fn are_jobs(item: &Item) -> bool
    ensures { result ≡ is_some (named_jobs (view item.now)) }
{
    is_each(JobForm::Alone, item) || is_each(JobForm::WithMore, item)
}

// Whether an item is a list of process jobs that are named so.
fn is_each(form: JobForm, item: &Item) -> bool
    ensures { result ≡ is_some (each (job_form form) (view item.now)) }
{
    match item {
        Item::List(items) => are_all(form, items.as_slice()),
        _ => false,
    }
}

// Whether each of these names a process job so.
fn are_all(form: JobForm, items: &[Item]) -> bool
    ensures { result ≡ is_some (all_of (job_form form) (items_of items.now)) }
{
    for item in items {
        if job_of(form, item).is_none() {
            return false;
        }
    }
    true
}

// The process jobs of a list; none where it is no such list.
fn jobs_of(alloc: Global, item: &Item) -> Result<Listed<Text80>, AllocError>
    ensures { IfOk result (λ jobs. jobs ≡ unwrap_or (named_jobs (view item.now)) []) }
{
    let form = if is_each(JobForm::Alone, item) {
        JobForm::Alone
    } else {
        JobForm::WithMore
    };
    each_of(alloc, form, item)
}

// Those that a list names so; none where it is no such list.
fn each_of(alloc: Global, form: JobForm, item: &Item) -> Result<Listed<Text80>, AllocError>
    ensures { IfOk result (λ jobs. jobs ≡ unwrap_or (each (job_form form) (view item.now)) []) }
{
    match item {
        Item::List(items) => all_of(alloc, form, items.as_slice()),
        _ => Ok(Listed::new(alloc)),
    }
}

// Those that items name so; none where one doesn't.
fn all_of(alloc: Global, form: JobForm, items: &[Item]) -> Result<Listed<Text80>, AllocError>
    ensures { IfOk result (λ jobs. jobs ≡ unwrap_or (all_of (job_form form) (items_of items.now)) []) }
{
    let mut jobs = Listed::new(alloc);
    for item in items {
        match job_of(form, item) {
            Some(job) => jobs.push(job)?,
            None => return Ok(Listed::new(alloc)),
        }
    }
    Ok(jobs)
}
