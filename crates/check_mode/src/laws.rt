//! Where a printed scenario is cut off.

ghost use Rattle.std.specs.Prelude.{◌≡◌, ◌++◌, ℕ, List};
ghost use Rattle.std.specs.List.{AllByRecursion};
ghost use Rattle.flat_machine.specs.flat_state.specs.declared.events.Decl.{Decl};
ghost use Rattle.journal_text.specs.Ranges.{IsDeclInRange};
ghost use Rattle.scenario_print.specs.Texts.{scenario_text};
ghost use Rattle.check_mode.specs.Parts.{scenario_part, journal_part};

/// Where an input begins with the text that `scenario_print::print` gives, that text is the scenario's part, and whatever stands
/// behind it is the journal's. So of a printed scenario and a printed journal behind it each is read as what was printed.
pub fn a_printed_scenario_is_cut_off()
    ensures scenario { (ds : List Decl) (behind : List ℕ) → AllByRecursion IsDeclInRange ds → scenario_part (scenario_text ds ++ behind) ≡ scenario_text ds }
    ensures journal { (ds : List Decl) (behind : List ℕ) → AllByRecursion IsDeclInRange ds → journal_part (scenario_text ds ++ behind) ≡ behind }
{}
