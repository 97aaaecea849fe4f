// Whole runs over sites in memory.
use crate::judging::{Judge, judged};
use esm_base::{Memory, Status, Text};
use esm_ports::MemSource;
use esm_run::Delivery;
use esm_sites::{
    COMMAND, RowCheck, Wanted, at_least_one, desk, failing_sink, is_wanted, one_source, sources_of,
    sure_sink, wanted_of,
};
use std::alloc::Global;
use std::marker::Sync;
use std::sync::Wait;
use std::thread::Threads;

/// Whether a run ends so.
#[derive(Drop)]
pub struct Ends<'a> {
    /// How it is to end.
    pub wanted: Wanted<'a>,
}

impl<'a, S> Judge<S> for Ends<'a> {
    fn is_right(
        &mut self,
        _alloc: Global,
        status: Status,
        written: &[u8],
        _taken: &[Delivery],
        _desk: &S,
        _sources: &[S],
    ) -> Result<bool, Memory> {
        Ok(is_wanted(self.wanted, status, written))
    }
}

/// Whether a run ends so, and takes so many files.
#[derive(Drop)]
pub struct Takes<'a> {
    /// How it is to end.
    pub wanted: Wanted<'a>,
    /// How many it is to take.
    pub count: usize,
}

impl<'a, S> Judge<S> for Takes<'a> {
    fn is_right(
        &mut self,
        _alloc: Global,
        status: Status,
        written: &[u8],
        taken: &[Delivery],
        _desk: &S,
        _sources: &[S],
    ) -> Result<bool, Memory> {
        Ok(is_wanted(self.wanted, status, written) && taken.len() == self.count)
    }
}

/// Runs these words over one source, which has these files. Whether the run ends so.
pub fn ends_so<R: Threads + Wait + Sync>(
    rt: &R,
    alloc: Global,
    line: &str,
    files: Vec<(Text, Vec<u8>)>,
    wanted: Wanted<'_>,
) -> Result<bool, Memory> {
    let sources = one_source(alloc, files)?;
    let desk = desk(alloc, "", 0)?;
    judged(
        rt,
        alloc,
        line,
        desk,
        sources,
        sure_sink(alloc),
        &mut Ends { wanted },
    )
}

/// What a run is over, beside its words.
#[derive(Drop)]
pub struct Setting<'a> {
    /// The site whose files each source has.
    pub site: &'a str,
    /// How many sources there are; one for 0.
    pub sources: usize,
    /// At which fetch each of them fails, counted from 1; at none for 0.
    pub fetch_fails: u64,
    /// The import map that the desk has; none where it is empty.
    pub map: &'a str,
    /// At which fetch the desk fails, counted from 1; at none for 0.
    pub map_fails: u64,
    /// How many bytes the sink takes at a time; all for 0.
    pub piece: usize,
    /// At which write it fails, counted from 1; at none for 0.
    pub write_fails: u64,
}

impl<'a> Setting<'a> {
    /// One source, which has the files of a site, no import map, and nothing that fails.
    pub fn of(site: &'a str) -> Setting<'a> {
        Setting {
            site,
            sources: 1,
            fetch_fails: 0,
            map: "",
            map_fails: 0,
            piece: 0,
            write_fails: 0,
        }
    }
}

/// Runs these words over what a setting says.
pub fn set_judged<R: Threads + Wait + Sync, J: Judge<MemSource>>(
    rt: &R,
    alloc: Global,
    line: &str,
    setting: &Setting<'_>,
    judge: &mut J,
) -> Result<bool, Memory> {
    let out = failing_sink(alloc, setting.piece, setting.write_fails)?;
    let desk = desk(alloc, setting.map, setting.map_fails)?;
    let count = at_least_one(setting.sources);
    let sources = sources_of(alloc, setting.site, count, setting.fetch_fails)?;
    judged(rt, alloc, line, desk, sources, out, judge)
}

/// Runs the entry of a site over one source that has its files.
pub fn site_judged<R: Threads + Wait + Sync, J: Judge<MemSource>>(
    rt: &R,
    alloc: Global,
    site: &str,
    judge: &mut J,
) -> Result<bool, Memory> {
    set_judged(rt, alloc, COMMAND, &Setting::of(site), judge)
}

/// Checks that a site runs as its text says.
pub struct RunsAsSaid;

impl RowCheck for RunsAsSaid {
    fn is_so<R: Threads + Wait + Sync>(
        &self,
        rt: &R,
        alloc: Global,
        row: &str,
    ) -> Result<bool, Memory> {
        let wanted = wanted_of(row);
        site_judged(rt, alloc, row, &mut Ends { wanted })
    }
}
