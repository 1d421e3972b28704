//! The tool's replies.

ghost use Rattle.std.specs.Prelude.{◌≡◌, ◌≤◌, ◌^◌, ◌∷◌, [], length, IfOk};
ghost use Rattle.item_model.specs.Data.{Data};
ghost use Rattle.item_model.specs.Plain.{plain};
ghost use Rattle.item_model.specs.Sendable.{IsSendable};
ghost use Rattle.item_model.specs.View.{view};
ghost use Rattle.item_model.specs.Weight.{IsBounded};
ghost use Rattle.message_model.specs.Printed.{A, L, each};
ghost use Rattle.message_model.specs.ShopReplies.{BOOL, U2, acknowledge as acknowledge_data, action_acknowledge as action_acknowledge_data, error_part, job_acknowledge, job_state, object_acknowledge as object_acknowledge_data, shop_reply_body};
ghost use Rattle.message_model.specs.ShopSendable.{HasSendableParts};

use body_parts::writing::{list, text, u1};
use gem_ids::Text80;
use item_model::{Bools, Item, Items, NoMemory, U16s};
use message_model::{ErrorPart, JobAcknowledge, JobState, ObjectAcknowledge, ShopReply};
use std::alloc::Global;

/// The item that is the text of the reply, as it is printed (after SEMI E87, E40 and E94; this tool's profile, messages).
///
/// It can be encoded, and takes at most 2,147,483,648 bytes, where none of its lists of errors or jobs has more than 1,024
/// parts.
#[tactic(auto, using(body_parts::proofs::Bounds::short_text))]
pub fn shop_item(alloc: Global, reply: &ShopReply) -> Result<Item, NoMemory>
    ensures exact { IfOk result (λ item. view item ≡ shop_reply_body reply.now) }
    ensures sendable { HasSendableParts reply.now → IfOk result (λ item. IsSendable (view item)) }
    ensures short { HasSendableParts reply.now → IfOk result (λ item. length (plain (view item)) ≤ 2 ^ 31) }
{
    item_of(alloc, reply)
}

// The same, within bounds.
fn item_of(alloc: Global, reply: &ShopReply) -> Result<Item, NoMemory>
    ensures exact { IfOk result (λ item. view item ≡ shop_reply_body reply.now) }
    ensures bounded { HasSendableParts reply.now → IfOk result (λ item. IsBounded 5 (2 ^ 31) (view item)) }
{
    match reply {
        ShopReply::S3F18(caack) => action_acknowledge(alloc, *caack),
        ShopReply::S3F26(caack) => action_acknowledge(alloc, *caack),
        ShopReply::S3F28(caack) => action_acknowledge(alloc, *caack),
        ShopReply::S14F10(id, told) => object_created(alloc, id, told),
        ShopReply::S16F6(job, told) => job_answered(alloc, job, told),
        ShopReply::S16F12(job, told) => job_answered(alloc, job, told),
        ShopReply::S16F18(jobs, told) => jobs_dequeued(alloc, jobs.as_slice(), told),
        ShopReply::S16F20(jobs) => list_of(alloc, jobs.as_slice()),
        ShopReply::S16F22(space) => u2(alloc, *space),
        ShopReply::S16F28(ok, errors) => acknowledged(alloc, *ok, errors.as_slice()),
    }
}

// What an action is answered.
fn action_acknowledge(alloc: Global, caack: u8) -> Result<Item, NoMemory>
    ensures { IfOk result (λ item. view item ≡ action_acknowledge_data caack) }
{
    list(alloc, [u1(alloc, caack)?, list(alloc, [])?])
}

// What the creation of an object is answered.
fn object_created(alloc: Global, id: &Text80, told: &ObjectAcknowledge) -> Result<Item, NoMemory>
    ensures exact { IfOk result (λ item. view item ≡ L (A id.now ∷ (L [] ∷ (object_acknowledge_data told.now ∷ [])))) }
    ensures bounded { length told.now.errors ≤ 1024 → IfOk result (λ item. IsBounded 5 (2 ^ 31) (view item)) }
{
    let id = text(alloc, id)?;
    let told = object_acknowledge(alloc, told)?;
    list(alloc, [id, Item::List(Items::new(alloc)), told])
}

fn object_acknowledge(alloc: Global, told: &ObjectAcknowledge) -> Result<Item, NoMemory>
    ensures exact { IfOk result (λ item. view item ≡ object_acknowledge_data told.now) }
    ensures bounded { length told.now.errors ≤ 1024 → IfOk result (λ item. IsBounded 3 120000 (view item)) }
{
    let objack = u1(alloc, told.objack)?;
    pair(alloc, objack, list_of(alloc, told.errors.as_slice())?)
}

// What a command to a process job, or its creation, is answered.
fn job_answered(alloc: Global, job: &Text80, told: &JobAcknowledge) -> Result<Item, NoMemory>
    ensures exact { IfOk result (λ item. view item ≡ L (A job.now ∷ (job_acknowledge told.now ∷ []))) }
    ensures bounded { length told.now.errors ≤ 1024 → IfOk result (λ item. IsBounded 5 (2 ^ 31) (view item)) }
{
    let job = text(alloc, job)?;
    pair(
        alloc,
        job,
        acknowledged(alloc, told.ok, told.errors.as_slice())?,
    )
}

// What is answered where jobs are to be taken off the queue.
fn jobs_dequeued(alloc: Global, jobs: &[Text80], told: &JobAcknowledge) -> Result<Item, NoMemory>
    ensures exact { IfOk result (λ item. view item ≡ L (each A jobs.now ∷ (job_acknowledge told.now ∷ []))) }
    ensures bounded { length jobs.now ≤ 1024 → length told.now.errors ≤ 1024 → IfOk result (λ item. IsBounded 5 (2 ^ 31) (view item)) }
{
    let jobs = list_of(alloc, jobs)?;
    pair(
        alloc,
        jobs,
        acknowledged(alloc, told.ok, told.errors.as_slice())?,
    )
}

// Whether something is taken, and why not.
fn acknowledged(alloc: Global, ok: bool, errors: &[ErrorPart]) -> Result<Item, NoMemory>
    ensures exact { IfOk result (λ item. view item ≡ acknowledge_data ok errors.now) }
    ensures bounded { length errors.now ≤ 1024 → IfOk result (λ item. IsBounded 3 120000 (view item)) }
{
    let ok = truth(alloc, ok)?;
    pair(alloc, ok, list_of(alloc, errors)?)
}

// A list of two items.
fn pair(alloc: Global, first: Item, second: Item) -> Result<Item, NoMemory>
    ensures { IfOk result (λ item. view item ≡ L (view first ∷ (view second ∷ []))) }
{
    let mut parts = Items::new(alloc);
    parts.push(first)?;
    parts.push(second)?;
    Ok(Item::List(parts))
}

// A BOOL of one element.
fn truth(alloc: Global, truth: bool) -> Result<Item, NoMemory>
    ensures { IfOk result (λ item. view item ≡ BOOL truth) }
{
    Ok(Item::Bool(Bools::from_vec(vec![in alloc; truth]?)))
}

// A U2 of one element.
fn u2(alloc: Global, number: u16) -> Result<Item, NoMemory>
    ensures { IfOk result (λ item. view item ≡ U2 number) }
{
    Ok(Item::U2(U16s::from_vec(vec![in alloc; number]?)))
}

// A part of a reply that is an element of a list. Its texts are texts by their type, so it is within bounds.
trait Printed {
    // As what it is printed.
    ghost body: { Self → Data };

    fn item(&self, alloc: Global) -> Result<Item, NoMemory>
        ensures exact { IfOk result (λ item. view item ≡ body self.now) }
        ensures bounded { IfOk result (λ item. IsBounded 1 110 (view item)) };
}

impl Printed for Text80 {
    ghost body = { A };

    fn item(&self, alloc: Global) -> Result<Item, NoMemory> {
        text(alloc, self)
    }
}

impl Printed for ErrorPart {
    ghost body = { error_part };

    fn item(&self, alloc: Global) -> Result<Item, NoMemory> {
        let code = u1(alloc, self.code)?;
        pair(alloc, code, text(alloc, &self.text)?)
    }
}

impl Printed for JobState {
    ghost body = { job_state };

    fn item(&self, alloc: Global) -> Result<Item, NoMemory> {
        let job = text(alloc, &self.job)?;
        pair(alloc, job, u1(alloc, self.state)?)
    }
}

// A list of an item for each part.
fn list_of<T: Printed>(alloc: Global, parts: &[T]) -> Result<Item, NoMemory>
    ensures exact { IfOk result (λ item. view item ≡ each T.body parts.now) }
    ensures bounded { length parts.now ≤ 1024 → IfOk result (λ item. IsBounded 2 112644 (view item)) }
{
    let mut items = Items::new(alloc);
    for part in parts {
        items.push(part.item(alloc)?)?;
    }
    Ok(Item::List(items))
}
