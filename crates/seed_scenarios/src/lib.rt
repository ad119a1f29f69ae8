//! Why the text that is made from a number is a scenario.
#![tactic(auto)]

ghost use Rattle.std.specs.Prelude.{◌≡◌, ℕ, List, Ok};
ghost use Rattle.scenario_print.specs.flat_state.specs.declared.events.Decl.{Decl};
ghost use Rattle.scenario_print.specs.scenario_reader.specs.Scenarios.{scenario};
ghost use Rattle.scenario_gen.specs.Generated.{text};
ghost use Rattle.seed_scenarios.specs.Seeds.{AreOf};

/// Of every number the text is a scenario, and what it declares is known: a machine of 13 groups, four kernels with their
/// rights, twelve spaces, three threads in each, their rows, and the words of the programs.
pub fn a_number_makes_a_scenario()
    ensures { (seed : ℕ) → (ds : List Decl) × AreOf seed ds × (scenario (text seed) ≡ Ok ds) }
{}
