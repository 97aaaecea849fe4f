// The walk of linking.
ghost use Rattle.std.specs.Prelude.{◌≡◌, ◌<◌, ◌≤◌, ℕ, false, cond, nat_lt, map, length, ◌^◌, OnOk, OnErr, MatchResult};
ghost use Rattle.std.specs.Arc.{arc_value};
ghost use Rattle.esm_realm.specs.Sound.{IsSound, records_of};
ghost use Rattle.esm_realm.specs.ById.{status_of, is_linking, without_status, index_of};
ghost use Rattle.esm_env.specs.Calls.{scopes_of};
ghost use Rattle.esm_env.specs.Makes.{IsMade, OthersStay};
ghost use Rattle.esm_env.specs.Scopes.{scope_in};
ghost use Rattle.esm_link.specs.Realm.{AreTrees, IsLinkedBy, IsLinkedScope, MakesScopes, modules_of};
ghost use Rattle.esm_link.specs.Inner.Graph.{AreIndexes};
ghost use Rattle.esm_link.specs.Inner.Leave.{IsLeft, IsNotLeft};
ghost use Rattle.esm_link.specs.Inner.Visit.{AreInside, Grown, IsWhole, ScopedBy, Visiting, unlinked};

use crate::LinkEnd;
use crate::bindings::bind;
use crate::graph::RealmGraph;
use crate::indexes::Indexes;
use crate::statuses::{count, enter, index, mark_from, status, target};
use esm_ast::Tree;
use esm_base::{Memory, ModuleId, Text};
use esm_env::{Envs, Target};
use esm_realm::{ModuleStatus, Realm};
use std::alloc::Global;
use std::sync::Arc;

/// Links a module and the Unlinked modules that it reaches: each has its imports bound in a scope and is Linked, or the
/// first of them, in the order in which they are left, that can't be linked tells its fault. The trees are those of the
/// realm's modules, in order of ids.
///
/// After a refusal, for want of memory too, the modules of the components that had closed are Linked, and all others that
/// were entered are Unlinked.
///
/// ECMA-262, Link and InnerModuleLinking. Components close by one stack and the lowest place to which a visit leads. The
/// depth of the calls is that of the walk, at most the number of the realm's modules.
pub fn link(
    alloc: Global,
    realm: &mut Realm,
    envs: &mut Envs,
    trees: &[Arc<Tree>],
    root: ModuleId,
) -> Result<(), LinkEnd>
    requires sound { IsSound (records_of realm.old) }
    requires trees { AreTrees (map arc_value trees.now) (records_of realm.old) }
    requires root { root.0 < length (records_of realm.old) }
    requires idle { (x : ℕ) → x < length (records_of realm.old)
        → is_linking (status_of (records_of realm.old) x) ≡ false }
    ensures links { IsLinkedBy (map arc_value trees.now) (records_of realm.old) root.0 result
        (records_of realm.new) }
    ensures scopes { MakesScopes (map arc_value trees.now) (records_of realm.old)
        (scopes_of envs.old) (records_of realm.new) (scopes_of envs.new) }
    ensures sound { IsSound (records_of realm.new) }
{
    let mut opened = Vec::new(alloc);
    let mut indexes = Indexes::new(alloc);
    match visit(
        alloc,
        realm,
        envs,
        trees,
        &mut indexes,
        &mut opened,
        root.0 as usize,
    ) {
        Ok(_low) => Ok(()),
        Err(end) => {
            mark_from(realm, opened.as_slice(), 0, ModuleStatus::Unlinked);
            Err(end)
        }
    }
}

/// Visits a module. Gives the lowest place among the open modules that it and those above it lead to.
///
/// ECMA-262, InnerModuleLinking.
fn visit(
    alloc: Global,
    realm: &mut Realm,
    envs: &mut Envs,
    trees: &[Arc<Tree>],
    indexes: &mut Indexes,
    opened: &mut Vec<usize>,
    x: usize,
) -> Result<usize, LinkEnd>
    requires whole { IsWhole (map arc_value trees.now)
        (map without_status (records_of realm.old)) }
    requires within { x < length (map without_status (records_of realm.old)) }
    requires inside { AreInside (map without_status (records_of realm.old)) opened.old.items }
    requires indexes { AreIndexes (modules_of (map arc_value trees.now)
        (map without_status (records_of realm.old))) indexes.old }
    ensures rest { map without_status (records_of realm.new)
        ≡ map without_status (records_of realm.old) }
    ensures fewer { OnOk result
        (unlinked (records_of realm.new) ≤ unlinked (records_of realm.old)) }
    ensures inside { AreInside (map without_status (records_of realm.old)) opened.new.items }
    ensures indexes { OnOk result (AreIndexes (modules_of (map arc_value trees.now)
        (map without_status (records_of realm.old))) indexes.new) }
    ensures scopes { ScopedBy (map arc_value trees.now)
        (map without_status (records_of realm.old)) result (status_of (records_of realm.old))
        (scopes_of envs.old) (status_of (records_of realm.new)) (scopes_of envs.new) }
    ensures grown { Grown (status_of (records_of realm.old)) opened.old.items
        (status_of (records_of realm.new)) opened.new.items }
    ensures visits { Visiting (map arc_value trees.now)
        (map without_status (records_of realm.old)) (status_of (records_of realm.old))
        (index_of realm.old) opened.old.items x result (status_of (records_of realm.new))
        (index_of realm.new) opened.new.items }
{
    match status(realm, x) {
        ModuleStatus::Unlinked => {}
        ModuleStatus::Linking => return Ok(index(realm, x)),
        ModuleStatus::New => return Ok(opened.len()),
        ModuleStatus::Linked => return Ok(opened.len()),
    }
    let place = opened.len();
    match opened.push(x) {
        Ok(()) => {}
        Err(_full) => return Err(LinkEnd::Memory),
    }
    enter(realm, x, place);
    let count = count(realm, x);
    let mut low = place;
    for i in 0..count {
        let t = target(realm, x, i);
        match visit(alloc, realm, envs, trees, indexes, opened, t) {
            Ok(found) => low = lesser(low, found),
            Err(end) => return Err(end),
        }
    }
    match leave(alloc, realm, envs, trees, indexes, x) {
        Ok(()) => {}
        Err(end) => return Err(end),
    }
    if low < place {
        return Ok(low);
    }
    mark_from(realm, opened.as_slice(), place, ModuleStatus::Linked);
    opened.truncate(place);
    Ok(low)
}

fn lesser(low: usize, found: usize) -> usize
    ensures { result ≡ cond (nat_lt found low) found low }
{
    if found < low { found } else { low }
}

/// Makes the scope of a module, unless it has a fault.
///
/// ECMA-262, InitializeEnvironment.
///
/// It isn't inlined, so that a frame of the walk is small: there is one for each open module.
#[inline(never)]
fn leave(
    alloc: Global,
    realm: &Realm,
    envs: &mut Envs,
    trees: &[Arc<Tree>],
    indexes: &mut Indexes,
    x: usize,
) -> Result<(), LinkEnd>
    requires whole { IsWhole (map arc_value trees.now) (records_of realm.now) }
    requires within { x < length (records_of realm.now) }
    requires indexes { AreIndexes (modules_of (map arc_value trees.now) (records_of realm.now))
        indexes.old }
    ensures indexes { OnOk result (AreIndexes
        (modules_of (map arc_value trees.now) (records_of realm.now)) indexes.new) }
    ensures left { MatchResult result
        (λ u. IsLeft (map arc_value trees.now) (records_of realm.now) x (scopes_of envs.old)
        (scopes_of envs.new))
        (IsNotLeft (map arc_value trees.now) (records_of realm.now) x (scopes_of envs.old)
        (scopes_of envs.new)) }
{
    let m = ModuleId(x as u32);
    let graph = RealmGraph::new(realm, trees);
    let imports = match bind(alloc, &graph, indexes, m) {
        Ok(imports) => imports,
        Err(end) => return Err(end),
    };
    match make_scope(alloc, envs, m, &trees[x], imports) {
        Ok(()) => Ok(()),
        Err(Memory) => Err(LinkEnd::Memory),
    }
}

fn make_scope(
    alloc: Global,
    envs: &mut Envs,
    m: ModuleId,
    tree: &Arc<Tree>,
    imports: Vec<(Text, Target)>,
) -> Result<(), Memory>
    requires { length (arc_value tree.now).items < 2 ^ 31 }
    ensures made { OnOk result (IsMade m (arc_value tree.now) imports.items
        (scope_in (scopes_of envs.new) m.0)) }
    ensures others { OthersStay (scopes_of envs.old) m.0 (scopes_of envs.new) }
    ensures err { OnErr result ((n : ℕ) → scope_in (scopes_of envs.new) n
        ≡ scope_in (scopes_of envs.old) n) }
{
    let tree = Arc::try_clone(tree)?;
    envs.make_module(alloc, m, tree, imports)
}
