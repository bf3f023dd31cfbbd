ghost use Rattle.std.specs.Prelude.{◌≡◌, ◌^◌, ◌<◌, ◌≤◌, ◌+◌, ◌∷◌, [], ◌++◌, ◌⊎◌, All, length, OnOk, IfOk, IfErr, MatchResult};
ghost use Rattle.component_scripts.specs.Tables.{ComponentTable};
ghost use Rattle.link_rules.specs.Plans.{IsPlan};
ghost use Rattle.system_plan.specs.declared.faults.Refusal.{Refusal as Answer};
ghost use Rattle.system_plan.specs.Scripts.{States, IsRefused};
ghost use Rattle.system_plan.specs.Systems.{SaysComponent, RefusesComponent, SaysSystem, RefusesSystem, AreComponents, IsComponentRefused, IsSystemOf, IsScriptRefused};
ghost use Rattle.system_plan.specs.Plans.{IsPlanned, IsAccepted, IsRefusedBy, IsCause, IsSystemCause, IsScriptCause};

use crate::faults::Refusal;
use address_map::Maps;
use av_base::Bytes;
use component_scripts::read_component;
use component_scripts::types::Catalog;
use link_rules::Plan;
use std::alloc::Global;
use system_scripts::read_system;
use system_tables::System;
use tcl_words::{Commands, no_two_readings, spelled_or_faulty};

/// Adds the component that a file states.
fn add_component(
    alloc: Global,
    file: u32,
    bytes: &[u8],
    catalog: &mut Catalog,
) -> Result<(), Refusal>
    requires { length bytes.now < 2 ^ 31 }
    ensures added { OnOk result
        ((component : ComponentTable) × States (SaysComponent catalog.old) file bytes.now component
        × (catalog.new ≡ catalog.old ++ component ∷ [])) }
    ensures refused { IfErr result (IsScriptCause (IsRefused (RefusesComponent catalog.old) file bytes.now)) }
{
    let commands = Commands::read(alloc, file, bytes)?;
    let component = read_component(alloc, &commands)?;
    catalog.add(component)?;
    Ok(())
}

/// The components that the component files state, of which the first is file 2.
fn components_of(alloc: Global, component_files: &[Bytes]) -> Result<Catalog, Refusal>
    requires few { length component_files.now ≤ 63 }
    requires short { All (λ bytes. length bytes < 2 ^ 31) component_files.now }
    ensures accepted { IfOk result (AreComponents component_files.now) }
    ensures refused { IfErr result (IsScriptCause (IsComponentRefused component_files.now)) }
{
    let mut catalog = Catalog::new(alloc);
    for (k, bytes) in component_files.iter().enumerate() {
        add_component(alloc, k as u32 + 2, bytes.as_slice(), &mut catalog)?;
    }
    Ok(catalog)
}

/// The system that the system file states, which is file 1.
fn system_of(alloc: Global, bytes: &[u8], components: &Catalog) -> Result<System, Refusal>
    requires { length bytes.now < 2 ^ 31 }
    ensures accepted { IfOk result (States (SaysSystem components.now) 1 bytes.now) }
    ensures refused { IfErr result (IsScriptCause (IsRefused (RefusesSystem components.now) 1 bytes.now)) }
{
    let commands = Commands::read(alloc, 1, bytes)?;
    Ok(read_system(alloc, &commands, components)?)
}

/// The plan of a system.
fn plan_over(alloc: Global, system: &System) -> Result<Plan, Refusal>
    ensures accepted { IfOk result (λ plan. (plan.system ≡ system.now) × IsPlan plan) }
    ensures refused { IfErr result (IsSystemCause system.now) }
{
    let maps = Maps::build(alloc, system)?;
    Ok(Plan::make(alloc, system, maps)?)
}

/// The system that files state.
fn stated_system(alloc: Global, files: &[Bytes]) -> Result<System, Refusal>
    requires some { 1 ≤ length files.now }
    requires few { length files.now ≤ 64 }
    requires short { All (λ bytes. length bytes < 2 ^ 31) files.now }
    ensures accepted { IfOk result (IsSystemOf files.now) }
    ensures refused { IfErr result (IsScriptCause (IsScriptRefused files.now)) }
{
    let components = components_of(alloc, &files[1..])?;
    system_of(alloc, files[0].as_slice(), &components)
}

/// The plan of files, or what refuses them.
fn judged(alloc: Global, files: &[Bytes]) -> Result<Plan, Refusal>
    requires some { 1 ≤ length files.now }
    requires few { length files.now ≤ 64 }
    requires short { All (λ bytes. length bytes < 2 ^ 31) files.now }
    ensures accepted { IfOk result (IsPlanned files.now) }
    ensures refused { IfErr result (IsCause files.now) }
{
    let system = stated_system(alloc, files)?;
    plan_over(alloc, &system)
}

/// The plan that files state, of which the first is the system file; or the first rule or limit that refuses them. The
/// component files are judged before the system file, scripts before connections, and connections before limits.
pub fn plan_of(alloc: Global, files: &[Bytes]) -> Result<Plan, Refusal>
    requires some { 1 ≤ length files.now }
    requires few { length files.now ≤ 64 }
    requires short { All (λ bytes. length bytes < 2 ^ 31) files.now }
    ensures accepted { IfOk result (IsPlanned files.now) }
    ensures refused { IfErr result (IsCause files.now) }
    // What no rule and no limit refuses has its plan, over the one system of the files, unless memory runs out.
    ensures only_plan { (accepted : IsAccepted files.now)
        → MatchResult result (λ plan. plan.system ≡ accepted.system) (λ refusal. refusal ≡ Refusal.NoMemory) }
    // What one refuses has no other answer, unless memory runs out.
    ensures only_refusal { (refusal : Answer) → IsRefusedBy files.now refusal
        → MatchResult result (λ _. ⊥) (λ answer. (answer ≡ refusal) ⊎ (answer ≡ Refusal.NoMemory)) }
{
    no_two_readings();
    spelled_or_faulty();
    judged(alloc, files)
}
