//! Laws of what configurations say, for proofs to cite. Each function is empty: what it ensures holds of the definitions.

ghost use Rattle.std.specs.Prelude.{◌≡◌, ℕ, List};
ghost use Rattle.tool_events.specs.declared.config.Config.{Config};
ghost use Rattle.configuration.specs.declared.fault.ConfigFault.{ConfigFault};
ghost use Rattle.configuration.specs.Reading.{Says, Breaks};

/// A text says one configuration at most. So what `read_config` gives is the only one that the text says.
pub fn a_text_says_one_configuration()
    ensures { (text : List ℕ) (c d : Config) → Says text c → Says text d → c ≡ d }
{}

/// A text that says a configuration breaks no rule, and another has one least rule that it breaks. So what `read_config` refuses
/// says nothing.
pub fn a_text_breaks_one_rule_or_none()
    ensures says { (text : List ℕ) (c : Config) (broken : ConfigFault) → Says text c → Breaks text broken → ⊥ }
    ensures one { (text : List ℕ) (a b : ConfigFault) → Breaks text a → Breaks text b → a ≡ b }
{}
