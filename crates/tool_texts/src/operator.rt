//! The words of an operator.
ghost use Rattle.std.specs.Prelude.{◌≡◌, ℕ};
ghost use Rattle.line_grammar.specs.Reading.{read};
ghost use Rattle.line_grammar.specs.Lines.{service_words, access_words, job_word, job_words, control_job_words, up_words, clear_words, lost_words, operator_words};

use gem_ids::{JobId, ModuleId, PortNo, SubstrateId};
use line_cursor::{Cursor, either, says};
use line_grammar::WordKind;
use tool_events::OperCmd;
use tool_tasks::JobWord;

// `service p in` and `service p out`.
#[tactic(auto, unfolding(line_grammar::specs::Lines::service_words))]
fn service(mut text: Cursor) -> Result<OperCmd, usize>
    ensures { result ≡ read service_words text.entry.total text.entry.rest.now }
{
    text.literal(b"service ")?;
    let port = PortNo(text.word().number(255)? as u8);
    text.literal(b" ")?;
    either(
        says(text, b"in", OperCmd::Service(port, true)),
        says(text, b"out", OperCmd::Service(port, false)),
    )
}

// `access p auto` and `access p manual`.
#[tactic(auto, unfolding(line_grammar::specs::Lines::access_words))]
fn access(mut text: Cursor) -> Result<OperCmd, usize>
    ensures { result ≡ read access_words text.entry.total text.entry.rest.now }
{
    text.literal(b"access ")?;
    let port = PortNo(text.word().number(255)? as u8);
    text.literal(b" ")?;
    either(
        says(text, b"auto", OperCmd::Access(port, true)),
        says(text, b"manual", OperCmd::Access(port, false)),
    )
}

// `up m`.
#[tactic(auto, unfolding(line_grammar::specs::Lines::up_words))]
fn up(mut text: Cursor) -> Result<OperCmd, usize>
    ensures { result ≡ read up_words text.entry.total text.entry.rest.now }
{
    text.literal(b"up ")?;
    Ok(OperCmd::Up(ModuleId(text.number(255)? as u8)))
}

// `clear n`.
#[tactic(auto, unfolding(line_grammar::specs::Lines::clear_words))]
fn clear(mut text: Cursor) -> Result<OperCmd, usize>
    ensures { result ≡ read clear_words text.entry.total text.entry.rest.now }
{
    text.literal(b"clear ")?;
    Ok(OperCmd::Clear(text.number(4_294_967_295)? as u32))
}

// A word to a process job, and the job's name behind it.
#[tactic(auto, unfolding(line_grammar::specs::Lines::job_word))]
fn tell(mut text: Cursor, verb: &[u8], word: JobWord) -> Result<OperCmd, usize>
    ensures { result ≡ read (job_word verb.now word) text.entry.total text.entry.rest.now }
{
    text.literal(verb)?;
    let id = JobId::read(text.run(WordKind::Name)?).unwrap();
    Ok(OperCmd::Job(id, word))
}

// `pj WORD JOB`.
#[tactic(auto, unfolding(line_grammar::specs::Lines::job_words))]
fn job(mut text: Cursor) -> Result<OperCmd, usize>
    ensures { result ≡ read job_words text.entry.total text.entry.rest.now }
{
    text.literal(b"pj ")?;
    let told = tell(text, b"start ", JobWord::Start);
    let told = either(told, tell(text, b"pause ", JobWord::Pause));
    let told = either(told, tell(text, b"resume ", JobWord::Resume));
    let told = either(told, tell(text, b"stop ", JobWord::Stop));
    let told = either(told, tell(text, b"abort ", JobWord::Abort));
    either(told, tell(text, b"cancel ", JobWord::Cancel))
}

// `cj n JOB`.
#[tactic(auto, unfolding(line_grammar::specs::Lines::control_job_words))]
fn control_job(mut text: Cursor) -> Result<OperCmd, usize>
    ensures { result ≡ read control_job_words text.entry.total text.entry.rest.now }
{
    text.literal(b"cj ")?;
    let number = text.word().number(255)? as u8;
    text.literal(b" ")?;
    let id = JobId::read(text.run(WordKind::Name)?).unwrap();
    Ok(OperCmd::CtlJob(id, number))
}

// `lost SUBSTRATE`.
#[tactic(auto, unfolding(line_grammar::specs::Lines::lost_words))]
fn lost(mut text: Cursor) -> Result<OperCmd, usize>
    ensures { result ≡ read lost_words text.entry.total text.entry.rest.now }
{
    text.literal(b"lost ")?;
    let id = SubstrateId::read(text.run(WordKind::Substrate)?).unwrap();
    Ok(OperCmd::Lost(id))
}

// What an operator says. Its first letter tells which of the words it may be; no word is empty.
#[tactic(auto, using(crate::proofs::OperatorLetters::enable_word, crate::proofs::OperatorLetters::disable_word, crate::proofs::OperatorLetters::line_words, crate::proofs::OperatorLetters::local_lost_words, crate::proofs::OperatorLetters::remote_word, crate::proofs::OperatorLetters::quit_word, crate::proofs::OperatorLetters::service_word, crate::proofs::OperatorLetters::access_word, crate::proofs::OperatorLetters::job_word, crate::proofs::OperatorLetters::control_clear_words, crate::proofs::OperatorLetters::up_word, crate::proofs::OperatorLetters::no_words, crate::proofs::OperatorLetters::other_words))]
pub(crate) fn operator(text: Cursor) -> Result<OperCmd, usize>
    ensures { result ≡ read operator_words text.entry.total text.entry.rest.now }
{
    let none = Err(text.place());
    let Some(letter) = text.first() else {
        return none;
    };
    match letter {
        b'e' => either(says(text, b"enable", OperCmd::Enable), none),
        b'd' => either(none, says(text, b"disable", OperCmd::Disable)),
        b'o' => {
            let found = either(none, says(text, b"online", OperCmd::Online));
            either(found, says(text, b"offline", OperCmd::Offline))
        }
        b'l' => {
            let found = either(none, says(text, b"local", OperCmd::Local));
            either(found, lost(text))
        }
        b'r' => either(none, says(text, b"remote", OperCmd::Remote)),
        b'q' => either(none, says(text, b"quit", OperCmd::Quit)),
        b's' => either(none, service(text)),
        b'a' => either(none, access(text)),
        b'p' => either(none, job(text)),
        b'c' => {
            let found = either(none, control_job(text));
            either(found, clear(text))
        }
        b'u' => either(none, up(text)),
        _ => none,
    }
}
