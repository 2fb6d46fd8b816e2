//! How many nodes a type has.

ghost use Rattle.std.specs.Prelude.{◌≡◌, ◌-◌, nat_lt, sum, map};
ghost use Rattle.psc_type.specs.Nodes as spec;

use crate::ty::Ty;

/// The most nodes that an expanded type, or a type that is printed, may have.
pub const MOST_NODES: u32 = 20_000;

/// Whether the type has more nodes than this. It looks at no more nodes than that.
pub fn has_more_nodes(ty: &Ty, limit: u32) -> bool
    ensures { result ≡ nat_lt limit (spec.nodes ty.now) }
{
    left_behind(ty, u64::from(limit) + 1) == 0
}

/// What is left of a number once one is taken for each node.
#[cycle(nodes)]
#[tactic(auto, using(crate::proofs::NodeRules::nodes_rules))]
fn left_behind(ty: &Ty, number: u64) -> u64
    ensures { result ≡ number - spec.nodes ty.now }
{
    if number == 0 {
        return 0;
    }
    let number = number - 1;
    match ty {
        Ty::Var(_) | Ty::Unknown(_) | Ty::Con(_) | Ty::RowNil | Ty::Symbol(_) | Ty::Any(_) => {
            number
        }
        Ty::App(first, second) | Ty::RowCons(_, first, second) => {
            let number = left_behind(first.get(), number);
            left_behind(second.get(), number)
        }
        Ty::Forall(_, _, body) => left_behind(body.get(), number),
        Ty::Given(given, body) => {
            let number = left_behind_all(given.args.as_slice(), number);
            left_behind(body.get(), number)
        }
    }
}

#[cycle(nodes)]
fn left_behind_all(args: &[Ty], number: u64) -> u64
    ensures { result ≡ number - sum (map spec.nodes args.now) }
{
    let mut number = number;
    for arg in args {
        number = left_behind(arg, number);
    }
    number
}
