// The records and the trees of a site, all of whose modules are loaded.
ghost use Rattle.std.specs.Prelude.{◌≡◌, ◌<◌, IfOk, OnOk, All, not, false, length, map};
ghost use Rattle.esm_base.specs.declared.limits.TheConstants.{MAX_URLS};
ghost use Rattle.std.specs.Arc.{arc_value};
ghost use Rattle.esm_base.specs.Urls.{IsUsable, has};
ghost use Rattle.esm_realm.specs.Sound.{records_of, url_of, parts_of};
ghost use Rattle.esm_link_tests.specs.Built.{IsBuilt};

use crate::sites::place_of;
use esm_ast::{Script, Tree};
use esm_base::{MAX_URLS, Memory, ModuleId, Text, is_usable};
use esm_realm::{ModuleStatus, Realm, Record};
use esm_script::read_script;
use std::alloc::Global;
use std::sync::Arc;

/// The records of a site, in order of ids, and their trees.
#[derive(Drop)]
pub struct Site {
    /// The records.
    pub realm: Realm,
    /// The trees.
    pub trees: Vec<Arc<Tree>>,
}

fn read(alloc: Global, text: &str) -> Result<Script, Memory> {
    let text = String::from_str(alloc, text)?;
    match read_script(alloc, text.into_bytes()) {
        Ok(script) => Ok(script),
        Err(_refused) => Err(Memory),
    }
}

// Whether no record has this URL.
fn is_fresh(records: &[Record], url: &Text) -> bool
    ensures { result ≡ not (has (map url_of (map parts_of records.now)) url.now) }
{
    match records {
        [] => true,
        [record, rest @ ..] => *url != record.url && is_fresh(rest, url),
    }
}

// This URL so many times.
fn repeated(alloc: Global, url: &Text, count: usize) -> Result<Vec<Text>, Memory>
    requires { IsUsable url.now }
    ensures usable { IfOk result (λ targets. All IsUsable targets.items) }
    ensures count { IfOk result (λ targets. length targets.items ≡ count) }
{
    let mut targets = Vec::new(alloc);
    for _ in 0..count {
        let target = url.clone()?;
        targets.push(target)?;
    }
    Ok(targets)
}

// The URL of a module with this name, if it may be one.
fn url_named(alloc: Global, name: &str) -> Result<Text, Memory>
    ensures { IfOk result IsUsable }
{
    let url = Text::from_string(format!(in alloc; "https://a.test/{name}")?);
    if is_usable(alloc, url.as_str())? {
        Ok(url)
    } else {
        Err(Memory)
    }
}

// Adds a module with this URL and this script, none of whose requests has loaded its module.
fn add_script(alloc: Global, site: &mut Site, url: Text, script: &Script) -> Result<(), Memory>
    requires built { IsBuilt (map arc_value site.old.trees.items) (records_of site.old.realm) }
    requires room { length (records_of site.old.realm) < MAX_URLS }
    requires fresh { has (map url_of (records_of site.old.realm)) url ≡ false }
    requires usable { IsUsable url }
    ensures { OnOk result
        (IsBuilt (map arc_value site.new.trees.items) (records_of site.new.realm)) }
{
    let _spelled = script.tree();
    let entries = script.share_entries()?;
    let targets = repeated(alloc, &url, script.entries().requests().len())?;
    site.trees.push(script.share_tree()?)?;
    let _id = site.realm.add(url, entries, targets)?;
    Ok(())
}

// Adds a module with this name and this text.
fn add(alloc: Global, site: &mut Site, name: &str, text: &str) -> Result<(), Memory>
    requires { IsBuilt (map arc_value site.old.trees.items) (records_of site.old.realm) }
    ensures { OnOk result
        (IsBuilt (map arc_value site.new.trees.items) (records_of site.new.realm)) }
{
    let script = read(alloc, text)?;
    let url = url_named(alloc, name)?;
    if site.realm.records.len() >= MAX_URLS {
        return Err(Memory);
    }
    if !is_fresh(site.realm.records.as_slice(), &url) {
        return Err(Memory);
    }
    add_script(alloc, site, url, &script)
}

// A request of a module has loaded its module, if there are both.
fn load(site: &mut Site, m: usize, request: usize, target: usize)
    requires { IsBuilt (map arc_value site.old.trees.items) (records_of site.old.realm) }
    ensures built { IsBuilt (map arc_value site.new.trees.items) (records_of site.new.realm) }
    ensures many { length (records_of site.new.realm) ≡ length (records_of site.old.realm) }
{
    let many = site.realm.records.len();
    if m >= many || target >= many {
        return;
    }
    if request < site.realm.records[m].entries.requests().len() {
        site.realm
            .load_request(ModuleId(m as u32), request, ModuleId(target as u32));
    }
}

// A request of a module, or nothing where there is none.
fn request_at(site: &Site, m: usize, request: usize) -> &str {
    match site.realm.records.get(m) {
        Some(record) => match record.entries.requests().get(request) {
            Some(text) => text.as_str(),
            None => "",
        },
        None => "",
    }
}

// A module is Unlinked.
fn be_unlinked(site: &mut Site, m: usize)
    requires built { IsBuilt (map arc_value site.old.trees.items) (records_of site.old.realm) }
    requires within { m < length (records_of site.old.realm) }
    ensures built { IsBuilt (map arc_value site.new.trees.items) (records_of site.new.realm) }
    ensures many { length (records_of site.new.realm) ≡ length (records_of site.old.realm) }
{
    site.realm.records[m].status = ModuleStatus::Unlinked;
}

// All requests of a module have loaded their modules, and it is Unlinked.
fn wire(site: &mut Site, text: &str, m: usize)
    requires built { IsBuilt (map arc_value site.old.trees.items) (records_of site.old.realm) }
    requires within { m < length (records_of site.old.realm) }
    ensures built { IsBuilt (map arc_value site.new.trees.items) (records_of site.new.realm) }
    ensures many { length (records_of site.new.realm) ≡ length (records_of site.old.realm) }
{
    let count = site.realm.records[m].entries.requests().len();
    for i in 0..count {
        let target = place_of(text, request_at(site, m, i));
        load(site, m, i, target);
    }
    be_unlinked(site, m);
}

/// The modules of a site, all of them loaded.
pub fn build(alloc: Global, text: &str) -> Result<Site, Memory>
    ensures { IfOk result
        (λ site. IsBuilt (map arc_value site.trees.items) (records_of site.realm)) }
{
    let mut site = Site {
        realm: Realm::new(alloc),
        trees: Vec::new(alloc),
    };
    for part in text.split('|') {
        match part.split_once('~') {
            Some((name, body)) => add(alloc, &mut site, name, body)?,
            None => return Err(Memory),
        }
    }
    let many = site.realm.records.len();
    for m in 0..many {
        wire(&mut site, text, m);
    }
    Ok(site)
}
