//! Worked lines: what a line says to `feed`, or where it leaves the lines that `feed` takes, and how an output line is
//! printed, computed from the definitions. Each function is a statement about them, and has no code.
#![tactic(auto, unfolding(crate::proofs::OnLiterals::lines_on_literals))]

ghost use Rattle.std.specs.Prelude.{◌≡◌, codes, Some, None, Ok, Err, [], ◌∷◌, true};
ghost use Rattle.gem_ids.specs.declared.numbers.LocId.TheVariants as loc;
ghost use Rattle.tool_tasks.specs.declared.task.Task.TheVariants as task;
ghost use Rattle.tool_events.specs.declared.event.OperCmd.TheVariants as oper;
ghost use Rattle.tool_tasks.specs.declared.words.JobWord.TheVariants as job;
ghost use Rattle.tool_events.specs.declared.event.Signal.TheVariants as signal;
ghost use Rattle.line_grammar.specs.declared.line.Line.TheVariants as line;
ghost use Rattle.line_grammar.specs.declared.out_line.OutLine.TheVariants as out;
ghost use Rattle.line_grammar.specs.Reading.{feed_line_of};
ghost use Rattle.line_grammar.specs.OutLines.{out_line_bytes};

/// Lines of each kind say what they are to say.
pub fn lines_say_values()
    ensures empty { feed_line_of (codes "") ≡ Ok line.Skip }
    ensures comment { feed_line_of (codes "# L+") ≡ Ok line.Skip }
    ensures up { feed_line_of (codes "L+") ≡ Ok line.Up }
    ensures bytes { feed_line_of (codes "H 00fFA9") ≡ Ok (line.Bytes (0 ∷ (255 ∷ (169 ∷ [])))) }
    ensures moment { feed_line_of (codes "T 25245561599999") ≡ Ok (line.Moment (record { 0 = 25245561599999 })) }
    ensures operator { feed_line_of (codes "O pj pause J1") ≡ Ok (line.Oper (oper.Job (codes "J1") job.Pause)) }
    ensures signal { feed_line_of (codes "S done 3 18446744073709551615")
        ≡ Ok (line.Signal (signal.Done (record { 0 = 3 }) (record { 0 = 18446744073709551615 }))) }
{}

/// A refusal is told at the first byte with which no line of `feed` goes on.
pub fn lines_leave_the_grammar()
    ensures word { feed_line_of (codes "O lox") ≡ Err 4 }
    ensures more { feed_line_of (codes "O lo") ≡ Err 4 }
    ensures number { feed_line_of (codes "T 25245561600000") ≡ Err 15 }
    ensures leading_zero { feed_line_of (codes "S removed 01") ≡ Err 11 }
    ensures odd { feed_line_of (codes "H 0") ≡ Err 3 }
    ensures watch { feed_line_of (codes "W 1") ≡ Err 0 }
{}

/// Output lines are printed so, each with its line feed.
pub fn out_lines_are_printed()
    ensures command { out_line_bytes (out.Command (record { 0 = 1 }) (record {
      number = record { 0 = 7 };
      task = task.Pick (codes "CAR01.02") (loc.Slot (record { 0 = 1 }) (record { 0 = 2 }));
    })) ≡ codes "! 1 7 pick CAR01.02 P1.02\n" }
    ensures frame { out_line_bytes (out.Frame (10 ∷ (255 ∷ []))) ≡ codes "> 0AFF\n" }
    ensures operator { out_line_bytes (out.Oper true) ≡ codes "= ok\n" }
{}
