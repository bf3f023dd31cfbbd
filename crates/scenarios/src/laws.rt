//! What holds of every scenario file. The functions do nothing; their contracts are the laws.

ghost use Rattle.std.specs.Prelude.{◌≡◌, ◌⊎◌, ℕ, List};
ghost use Rattle.system_tables.specs.Tables.{SystemTable};
ghost use Rattle.scenario_tables.specs.declared.scenario.Scenario.{Scenario};
ghost use Rattle.scenario_tables.specs.Scenarios.{IsScenario};
ghost use Rattle.scenarios.specs.Files.{IsScenarioOf, IsFaultOf, IsFirstFault, IsStatedByAll};
ghost use Rattle.scenarios.specs.declared.faults.ScenarioRule.{ScenarioRule};
ghost use Rattle.scenarios.specs.declared.faults.ScenarioFault.TheVariants.{Refused};

/// Each file states a scenario or has a first fault.
pub fn scenario_or_fault()
    ensures { (system : SystemTable) (bytes : List ℕ)
        → ((scenario : Scenario) × IsScenarioOf system bytes scenario)
        ⊎ ((line : ℕ) × (rule : ScenarioRule) × IsFaultOf system bytes (Refused line rule)) }
{}

/// A file is refused or states a scenario, and never both.
pub fn never_both()
    ensures { (system : SystemTable) (bytes : List ℕ) (scenario : Scenario) (line : ℕ) (rule : ScenarioRule)
        → IsScenarioOf system bytes scenario → ¬ (IsFaultOf system bytes (Refused line rule)) }
{}

/// A file states one scenario at most.
pub fn no_two_scenarios()
    ensures { (system : SystemTable) (bytes : List ℕ) (one other : Scenario) → IsScenarioOf system bytes one
        → IsScenarioOf system bytes other → one ≡ other }
{}

/// A file has one first fault at most: one line and one rule.
pub fn no_two_first_faults()
    ensures { (system : SystemTable) (bytes : List ℕ) (line other : ℕ) (rule second : ScenarioRule)
        → IsFaultOf system bytes (Refused line rule) → IsFaultOf system bytes (Refused other second)
        → (line ≡ other) × (rule ≡ second) }
{}

/// What a file states fits the system.
pub fn stated_scenarios_fit()
    ensures { (system : SystemTable) (bytes : List ℕ) (scenario : Scenario) → IsScenarioOf system bytes scenario
        → IsScenario system scenario }
{}

/// Where a file has a fault, the lines before it break no rule.
pub fn first_faults_are_first()
    ensures { (system : SystemTable) (bytes : List ℕ) (line : ℕ) (rule : ScenarioRule)
        → IsFaultOf system bytes (Refused line rule) → IsFirstFault system bytes line rule }
{}

/// Where a file states a scenario, no line breaks a rule, and the scenario is what all lines state.
pub fn all_lines_are_stated()
    ensures { (system : SystemTable) (bytes : List ℕ) (scenario : Scenario) → IsScenarioOf system bytes scenario
        → IsStatedByAll system bytes scenario }
{}
