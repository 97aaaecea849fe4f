// The records of modules and the loads, over a site: its modules are asked for, fetched, loaded and linked.
ghost use Rattle.std.specs.Prelude.{◌≡◌, true, None, IfOk, IfSome, OnOk};
ghost use Rattle.esm_base.specs.Urls.{has};
ghost use Rattle.esm_loads.specs.Arrival.{next, open_asks};
ghost use Rattle.esm_machine.specs.ModuleStore.{is_whole, seen_of};
ghost use Rattle.esm_machine.specs.Seen.{linked, names};
ghost use Rattle.esm_machine_tests.specs.Fresh.{IsFresh};

use esm_ast::Outcome;
use esm_base::{Memory, ModuleId, Text};
use esm_env::Envs;
use esm_import_map::ImportMap;
use esm_link::{LinkEnd, LinkKind};
use esm_loads::LoadEnd;
use esm_machine::ModuleStore;
use esm_promise::{Promises, Reaction, ReactionKind};
use esm_script::read_script;
use esm_values::Errors;
use std::alloc::Global;
use std::sync::Arc;

pub(crate) const MAIN: &str = "https://a.test/main.js";

const B: &str = "https://a.test/b.js";

const MISSING: &str = "https://a.test/none.js";

// What the fetch of a URL comes to, where this is the text of the entry.
pub(crate) fn fetched(alloc: Global, main: &str, url: &Text) -> Result<Outcome, Memory> {
    if url.is(MISSING) {
        return Ok(Outcome::Absent);
    }
    let body = if url.is(MAIN) {
        main
    } else if url.is(B) {
        "import * as c from './c.js';\nexport let b = 'b';\n"
    } else {
        "export let c = 'c';\nawait 'done';\n"
    };
    match read_script(alloc, Vec::from_slice(alloc, body.as_bytes())?) {
        Ok(script) => Ok(Outcome::Script(Arc::new(alloc, script)?)),
        Err(_refused) => Ok(Outcome::Failed),
    }
}

// The entry alone is asked.
fn opened(alloc: Global, promises: &mut Promises) -> Result<ModuleStore, Memory>
    ensures fresh { IfOk result IsFresh }
    ensures answered { IfOk result (λ i. next (seen_of i).loading ≡ None) }
{
    let import_map = Arc::new(alloc, ImportMap::empty(alloc))?;
    let entry = Text::copy(alloc, MAIN)?;
    let reaction = Reaction {
        kind: ReactionKind::EntryLoaded,
        subject: 0,
    };
    let promise = promises.make_with(alloc, reaction)?;
    if promise.0 > 0 {
        return Err(Memory);
    }
    ModuleStore::opening(alloc, import_map, &entry, promise)
}

// The first ask, if there is one.
fn first_ask(store: &ModuleStore) -> Result<Option<Text>, Memory>
    requires { is_whole store.now.condition ≡ true }
    ensures { IfOk result (λ o. IfSome o (λ u.
        has (open_asks (seen_of store.now).loading) u ≡ true)) }
{
    match store.asks() {
        [] => Ok(None),
        [url, ..] => Ok(Some(url.clone()?)),
    }
}

// All pending requests of fetched URLs are answered.
fn answer_all(
    store: &mut ModuleStore,
    promises: &mut Promises,
    errors: &mut Errors,
) -> Result<(), LoadEnd>
    requires { IsFresh store.old }
    ensures fresh { OnOk result (IsFresh store.new) }
    ensures answered { OnOk result (next (seen_of store.new).loading ≡ None) }
{
    for _round in 0..64 {
        match store.step(promises, errors) {
            Ok(true) => {}
            Ok(false) => return Ok(()),
            Err(end) => return Err(end),
        }
    }
    Err(LoadEnd::Memory)
}

// The fetch of this open ask ends, and all that waits for it is answered.
fn deliver(
    alloc: Global,
    store: &mut ModuleStore,
    promises: &mut Promises,
    errors: &mut Errors,
    main: &str,
    url: &Text,
) -> Result<(), LoadEnd>
    requires fresh { IsFresh store.old }
    requires answered { next (seen_of store.old).loading ≡ None }
    requires open { has (open_asks (seen_of store.old).loading) url.now ≡ true }
    ensures fresh { OnOk result (IsFresh store.new) }
    ensures answered { OnOk result (next (seen_of store.new).loading ≡ None) }
{
    match fetched(alloc, main, url) {
        Ok(outcome) => match store.arrive(errors, url, &outcome) {
            Ok(()) => answer_all(store, promises, errors),
            Err(end) => Err(end),
        },
        Err(Memory) => Err(LoadEnd::Memory),
    }
}

// All that is asked is fetched, in order of asking.
fn load_all(
    alloc: Global,
    store: &mut ModuleStore,
    promises: &mut Promises,
    errors: &mut Errors,
    main: &str,
) -> Result<(), LoadEnd>
    requires fresh { IsFresh store.old }
    requires answered { next (seen_of store.old).loading ≡ None }
    ensures { OnOk result (IsFresh store.new) }
{
    for _round in 0..8 {
        match first_ask(store) {
            Ok(Some(url)) => match deliver(alloc, store, promises, errors, main, &url) {
                Ok(()) => {}
                Err(end) => return Err(end),
            },
            Ok(None) => return Ok(()),
            Err(Memory) => return Err(LoadEnd::Memory),
        }
    }
    Err(LoadEnd::Memory)
}

// The root is linked, where nothing is.
fn link_root(alloc: Global, store: &mut ModuleStore, root: ModuleId) -> Result<(), LinkEnd>
    requires fresh { IsFresh store.old }
    requires loaded { (seen_of store.old).loading.unlinked
        ((names (seen_of store.old)).name root.0) ≡ true }
    ensures { OnOk result (linked (seen_of store.new) root.0 ≡ true) }
{
    esm_world::loaded::linked_stays_linked();
    let mut envs = Envs::new(alloc);
    store.link(alloc, &mut envs, root)
}

// The module of its first request.
fn first_target(store: &ModuleStore, m: ModuleId) -> Option<ModuleId>
    requires { linked (seen_of store.now) m.0 ≡ true }
{
    if store.target_count(m) > 0 {
        Some(store.target_of(m, 0))
    } else {
        None
    }
}

// Does the store ask for the entry alone, with no record and no promise of an `import()`?
fn has_just_opened(store: &ModuleStore) -> bool
    requires { is_whole store.now.condition ≡ true }
{
    match store.asks() {
        [url] => url.is(MAIN) && store.count() == 0 && store.import_promise(0).is_none(),
        _ => false,
    }
}

// What is read of a site.
#[derive(Clone, Copy)]
struct Read {
    // Whether the store asked for the entry alone when it opened.
    opened: bool,
    records: usize,
    // Of the root: how many requests it has, the module of the first, and whether it awaits.
    requests: usize,
    first: Option<ModuleId>,
    awaits: bool,
}

// The same of a store whose root is linked.
fn read_root(store: &ModuleStore, root: ModuleId, opened: bool) -> Read
    requires { linked (seen_of store.now) root.0 ≡ true }
{
    Read {
        opened,
        records: store.count(),
        requests: store.target_count(root),
        first: first_target(store, root),
        awaits: store.awaits(root),
    }
}

// The entry is fetched with this text, all that is asked then is, and the root is linked and read.
fn link_all(
    alloc: Global,
    store: &mut ModuleStore,
    promises: &mut Promises,
    errors: &mut Errors,
    main: &str,
) -> Result<Read, LinkEnd>
    requires fresh { IsFresh store.old }
    requires answered { next (seen_of store.old).loading ≡ None }
{
    let opened = has_just_opened(store);
    match load_all(alloc, store, promises, errors, main) {
        Ok(()) => {}
        Err(_end) => return Err(LinkEnd::Memory),
    }
    let Some(root) = store.root_of_load(0) else {
        return Err(LinkEnd::Memory);
    };
    match link_root(alloc, store, root) {
        Ok(()) => Ok(read_root(store, root, opened)),
        Err(end) => Err(end),
    }
}

// What the site comes to, where this is the text of the entry. It alone lets a store go, at one end: each end is proved
// at the cost of all parts of what it lets go.
fn linked_site(alloc: Global, main: &str) -> Result<Read, LinkEnd> {
    let mut promises = Promises::new(alloc);
    let mut errors = Errors::new(alloc);
    match opened(alloc, &mut promises) {
        Ok(mut store) => link_all(alloc, &mut store, &mut promises, &mut errors, main),
        Err(Memory) => Err(LinkEnd::Memory),
    }
}

// Whether a site of three modules is read so. Records come in the order of arrival: the entry, and then what it requests, in
// order.
fn is_read(read: Read) -> bool {
    read.opened
        && read.records == 3
        && read.requests == 2
        && read.first == Some(ModuleId(1))
        && !read.awaits
}

// Whether such a site is loaded and linked.
fn is_linked(alloc: Global) -> bool {
    let main = "import {b} from './b.js';\nimport {c} from './c.js';\nprint(b, c);\n";
    match linked_site(alloc, main) {
        Ok(read) => is_read(read),
        Err(_end) => false,
    }
}

// Is this a fault of this kind, of that module and its target, at that name?
fn is_fault(end: &LinkEnd, kind: LinkKind, module: ModuleId, target: ModuleId, name: &str) -> bool {
    match end {
        LinkEnd::Fault(fault) => {
            fault.kind == kind
                && fault.module == module
                && fault.target == target
                && fault.name.is(name)
        }
        LinkEnd::Memory => false,
    }
}

// Whether an import of a name that isn't exported is a fault (ECMA-262, InitializeEnvironment).
fn is_name_missed(alloc: Global) -> bool {
    match linked_site(alloc, "import {c} from './b.js';\nprint(c);\n") {
        Ok(_read) => false,
        Err(end) => is_fault(&end, LinkKind::K1, ModuleId(0), ModuleId(1), "c"),
    }
}

#[test]
fn sites_are_loaded_and_linked(rt: HostRuntime) {
    assert!(rt; is_linked(rt.alloc()));
    assert!(rt; is_name_missed(rt.alloc()));
}
