// What evaluation reads of modules, and their linking.
ghost use Rattle.std.specs.Prelude.{◌≡◌, ◌<◌, List, true, length, slice_get, Some};
ghost use Rattle.esm_base.specs.Urls.{Url, has};
ghost use Rattle.esm_env.specs.Calls.{scopes_of};
ghost use Rattle.esm_env.specs.Modules.{entries};
ghost use Rattle.esm_env.specs.Scopes.{cells_of};
ghost use Rattle.esm_link.specs.Link.{targets};
ghost use Rattle.esm_machine.specs.ModuleStore.{is_whole, seen_of};
ghost use Rattle.esm_rewriting.specs.Fits.{AreLinked};
ghost use Rattle.esm_machine.specs.Linking.{KeepsScopes, LinksSeen, NamesRecords, SameMembers, condition_linked};
ghost use Rattle.esm_machine.specs.Seen.{linked, modules, names};
ghost use Rattle.esm_machine.specs.SeenScopes.{AreScopesIn};

use crate::by_id::{flag_of, loaded_count, loaded_of, record_count};
use crate::condition::condition_unlinked;
use crate::laws::linking_is_of_the_world;
use crate::module_store::ModuleStore;
use esm_base::ModuleId;
use esm_env::Envs;
use esm_link::{LinkEnd, link};
use std::alloc::Global;

impl ModuleStore {
    /// How many records there are.
    pub fn count(&self) -> usize
        ensures { result ≡ length (seen_of self.now).urls }
    {
        record_count(&self.realm)
    }

    /// How many requests the module has, which is linked.
    pub fn target_count(&self, m: ModuleId) -> usize
        requires { linked (seen_of self.now) m.0 ≡ true }
        ensures { result ≡ length (targets (modules (seen_of self.now)) m.0) }
    {
        loaded_count(&self.realm, m)
    }

    /// The module of a request of a module that is linked.
    pub fn target_of(&self, m: ModuleId, i: usize) -> ModuleId
        requires linked { linked (seen_of self.now) m.0 ≡ true }
        requires within { i < length (targets (modules (seen_of self.now)) m.0) }
        ensures { slice_get (targets (modules (seen_of self.now)) m.0) i ≡ Some result.0 }
    {
        loaded_of(&self.realm, m, i)
    }

    /// Whether the body of a module that is linked awaits.
    pub fn awaits(&self, m: ModuleId) -> bool
        requires { linked (seen_of self.now) m.0 ≡ true }
        ensures { result ≡ (entries (modules (seen_of self.now)) m.0).awaits }
    {
        flag_of(self.awaiting.as_slice(), m)
    }

    /// Links a module that is loaded with all that it reaches: it and the Unlinked modules that it reaches have their
    /// scopes and are Linked; or the first of them that can't be linked tells its fault, and the components that had closed
    /// before are Linked.
    ///
    /// ECMA-262, Link.
    pub fn link(&mut self, alloc: Global, envs: &mut Envs, root: ModuleId) -> Result<(), LinkEnd>
        requires whole { is_whole self.old.condition ≡ true }
        requires loaded { (seen_of self.old).loading.unlinked
            ((names (seen_of self.old)).name root.0) ≡ true }
        requires linked { AreLinked (modules (seen_of self.old)) (linked (seen_of self.old)) }
        requires scopes { AreScopesIn (seen_of self.old) (scopes_of envs.old) }
        ensures links { (linked_are : List Url) → SameMembers linked_are (seen_of self.old).linked
            → LinksSeen (seen_of self.old) linked_are root.0 result (seen_of self.new) }
        ensures loading { (seen_of self.new).loading ≡ (seen_of self.old).loading }
        ensures urls { (seen_of self.new).urls ≡ (seen_of self.old).urls }
        ensures fault { NamesRecords (seen_of self.old) result }
        ensures condition { self.new.condition ≡ condition_linked result }
        ensures scopes { KeepsScopes result self.new (scopes_of envs.new) }
        ensures maps { self.new.maps ≡ self.old.maps }
        ensures cells { cells_of (scopes_of envs.new) ≡ cells_of (scopes_of envs.old) }
    {
        linking_is_of_the_world();
        esm_link::laws::links_from_linked();
        esm_link::laws::link_leaves_records();
        esm_link::laws::link_keeps_scopes();
        esm_link::laws::scopes_are_local();
        esm_link::laws::spelled_is_bound();
        match link(alloc, &mut self.realm, envs, self.loads.trees(), root) {
            Ok(()) => Ok(()),
            Err(end) => {
                self.condition = condition_unlinked(&end);
                Err(end)
            }
        }
    }
}
