//! A team: appliers of one forest, one for each worker.
ghost use Rattle.std.specs.Prelude.{◌≡◌, ℕ, ◌+◌, ◌<◌, None, IfOk, IfErr, vec_len};
ghost use Rattle.std.specs.List.{All};
ghost use Rattle.eqc_tree.specs.Holding.{IsNew};
ghost use Rattle.eqc_apply.specs.Extending.{holding_in};
ghost use Rattle.eqc_core.specs.declared.sizes.Sizes.{Sizes};
ghost use Rattle.eqc_guard.specs.Rule.{sizes_of};
ghost use Rattle.eqc_apply.specs.Teaming.{AreTeamSizes, IsTeam, IsLead, number_of, forest_of, sizes_in, turns_in};

use crate::allowance::Allowance;
use crate::applier::Applier;
use crate::held::Held;
use eqc_guard::forest::Forest;
use eqc_plain::cache::Cache;
use eqc_tree::Stop;
use std::alloc::Global;

// The first member, whose forest is new.
fn first_member(
    alloc: Global,
    vars: u16,
    nodes: u32,
    cells: u32,
    workers: u32,
    forks: u32,
    allowance: Allowance,
) -> Result<Applier, Stop>
    requires { AreTeamSizes nodes cells workers forks }
    ensures lead { IfOk result (IsLead vars (sizes_of vars nodes cells workers) 1) }
    ensures turns { IfOk result (λ a. turns_in a ≡ allowance.turns) }
    ensures only { IfErr result (λ s. s ≡ Stop.Memory) }
{
    let worker = Forest::new(alloc, vars, nodes, cells, workers)?;
    Ok(Applier {
        names: Held {
            worker,
            variables: vars,
            counts: Vec::new(alloc),
            referred: 0,
            turns: allowance.turns,
        },
        cells: Cache::new(alloc),
        tasks: Vec::new(alloc),
        // One that is alone has nobody to offer to.
        forks: if workers > 1 { forks } else { 0 },
        offers: Vec::new(alloc),
        owed: 0,
        anew: allowance.anew,
        vain: 0,
    })
}

// The next member, which the first one splits off.
fn next_member(alloc: Global, lead: &mut Applier) -> Result<Applier, Stop>
    requires lead { (n : ℕ) × (s : Sizes) × (g : ℕ) × IsLead n s g lead.old × (g < s.workers) }
    ensures lead { (n : ℕ) (s : Sizes) (g : ℕ) → IsLead n s g lead.old → IfOk result (λ a. IsLead n s (g + 1) lead.new × IsNew n (holding_in a.names) × (number_of a ≡ g) × (sizes_in a ≡ s)) }
    ensures forest { IfOk result (λ a. (forest_of lead.new ≡ forest_of lead.old) × (forest_of a ≡ forest_of lead.old)) }
    ensures turns { IfOk result (λ a. (turns_in lead.new ≡ turns_in lead.old) × (turns_in a ≡ turns_in lead.old)) }
    ensures only { IfErr result (λ s. s ≡ Stop.Memory) }
{
    let variables = lead.names.variables;
    let forks = lead.forks;
    let turns = lead.names.turns;
    let anew = lead.anew;
    match lead.names.worker.split() {
        Ok(worker) => Ok(Applier {
            names: Held {
                worker,
                variables,
                counts: Vec::new(alloc),
                referred: 0,
                turns,
            },
            cells: Cache::new(alloc),
            tasks: Vec::new(alloc),
            forks,
            offers: Vec::new(alloc),
            owed: 0,
            anew,
            vain: 0,
        }),
        Err(_) => Err(Stop::Memory),
    }
}

/// The members of a team over one new forest: a worker each, which holds nothing, member i being
/// worker i.
///
/// `vars` is the number of variables, `nodes` the room for nodes, from 1 to 1,048,574, that all
/// share, `cells` the number of cells of the cache, from 1 to 1,048,576, that all share, and
/// `workers` the number of members, from 1 to 64. In the first `forks` levels of an operation, of
/// which there are at most 16, one half is offered to the other members. `allowance` tells what
/// each member may do where there is little room. The error is `Stop::Memory` alone.
pub fn team_with(
    alloc: Global,
    vars: u16,
    nodes: u32,
    cells: u32,
    workers: u32,
    forks: u32,
    allowance: Allowance,
) -> Result<Vec<Applier>, Stop>
    requires { AreTeamSizes nodes cells workers forks }
    ensures team { IfOk result (λ members. IsTeam vars nodes cells workers members.items) }
    ensures turns { IfOk result (λ members. All (λ a. turns_in a ≡ allowance.turns) members.items) }
    ensures count { IfOk result (λ members. vec_len members ≡ workers) }
    ensures only { IfErr result (λ s. s ≡ Stop.Memory) }
{
    let mut lead = first_member(alloc, vars, nodes, cells, workers, forks, allowance)?;
    let mut members = Vec::new(alloc);
    for _ in 1..workers {
        let Ok(()) = members.push(next_member(alloc, &mut lead)?) else {
            return Err(Stop::Memory);
        };
    }
    let Ok(()) = members.insert(0, lead) else {
        return Err(Stop::Memory);
    };
    Ok(members)
}

/// The members of a team as `team_with` makes them, whose operations begin anew where the forest is
/// full, and take as many turns as they need: so they stop for nodes only where every slot was seen
/// taken.
pub fn team(
    alloc: Global,
    vars: u16,
    nodes: u32,
    cells: u32,
    workers: u32,
    forks: u32,
) -> Result<Vec<Applier>, Stop>
    requires { AreTeamSizes nodes cells workers forks }
    ensures team { IfOk result (λ members. IsTeam vars nodes cells workers members.items) }
    ensures endless { IfOk result (λ members. All (λ a. turns_in a ≡ None) members.items) }
    ensures count { IfOk result (λ members. vec_len members ≡ workers) }
    ensures only { IfErr result (λ s. s ≡ Stop.Memory) }
{
    let allowance = Allowance {
        anew: true,
        turns: None,
    };
    team_with(alloc, vars, nodes, cells, workers, forks, allowance)
}
