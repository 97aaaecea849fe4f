// Evaluation of small graphs with ample memory, by bodies that do what a table says. What is expected follows from ECMA-262.
ghost use Rattle.std.specs.Prelude.{OnOk, IfOk, length};
ghost use Rattle.esm_eval_tests.specs.Scripted.{IsBlank, MayGoOn};

use esm_base::{Memory, ModuleId};
use esm_eval::laws::{hosts_may_evaluate, hosts_stay_between};
use esm_eval::{Bodies, EvalEnd, EvalHost, Nodes, Phase, evaluate, fulfilled, rejected};
use esm_promise::{Promises, Settled};
use esm_values::{PromiseId, Ran, Value};
use std::alloc::Global;

// What a module requests, whether it awaits, and whether its body throws.
#[derive(Drop)]
struct Row {
    targets: Vec<u32>,
    awaits: bool,
    throws: bool,
}

// Modules, and those whose bodies have begun, in order.
#[derive(Drop)]
struct Page {
    rows: Vec<Row>,
    order: Vec<u32>,
}

impl Bodies for Page {
    ghost use Rattle.esm_eval_tests.specs.Scripted as scripted;

    type Stop = ();

    ghost linked = { λ p. scripted.is_row p.rows.items };

    ghost targets = { λ p. scripted.targets_in (λ r. r.targets.items) p.rows.items };

    ghost awaits = { λ p. scripted.awaits_in (λ r. r.awaits) p.rows.items };

    ghost begun = { λ p. scripted.noted p.order.items };

    ghost knows = { λ p v. Unit {0} };

    ghost fits = { λ o. Unit {0} };

    ghost acts = { scripted.Acts (λ p. p.rows.items) (λ p. p.order.items) (λ r. r.targets.items)
        (λ r. r.awaits) (Unit {0}) };

    ghost begins_its_own = { scripted.begins_its_own (λ p. p.rows.items) (λ p. p.order.items)
        (λ r. r.targets.items) (λ r. r.awaits) (Unit {0}) };

    ghost leaves_modules = { scripted.leaves_modules (λ p. p.rows.items) (λ p. p.order.items)
        (λ r. r.targets.items) (λ r. r.awaits) (Unit {0}) };

    ghost stays_fit = { scripted.stays_fit (λ p. p.rows.items) (λ p. p.order.items)
        (λ r. r.targets.items) (λ r. r.awaits) };

    fn target_count(&self, m: ModuleId) -> usize {
        self.rows[m.0 as usize].targets.len()
    }

    fn target(&self, m: ModuleId, i: usize) -> ModuleId {
        let target = self.rows[m.0 as usize].targets[i];
        if (target as usize) < self.rows.len() {
            ModuleId(target)
        } else {
            m
        }
    }

    fn awaits(&self, m: ModuleId) -> bool {
        self.rows[m.0 as usize].awaits
    }

    fn has_begun(&self, m: ModuleId) -> bool {
        self.order.contains(&m.0)
    }

    fn start(
        &mut self,
        _promises: &mut Promises,
        m: ModuleId,
        _done: PromiseId,
    ) -> Result<(), EvalEnd<()>> {
        match self.order.push(m.0) {
            Ok(()) => Ok(()),
            Err(_full) => Err(EvalEnd::Memory),
        }
    }

    fn run(&mut self, _promises: &mut Promises, m: ModuleId) -> Result<Ran, EvalEnd<()>> {
        match self.order.push(m.0) {
            Ok(()) => {
                if self.rows[m.0 as usize].throws {
                    Ok(Ran::Thrown(Value::Bool(true)))
                } else {
                    Ok(Ran::Normal)
                }
            }
            Err(_full) => Err(EvalEnd::Memory),
        }
    }
}

// What a word says of a module: the digits are the modules that it requests, `a` that its body awaits, `t` that it throws.
fn row_of(alloc: Global, word: &str) -> Result<Row, Memory> {
    Ok(Row {
        targets: digits(alloc, word)?,
        awaits: word.ends_with('a'),
        throws: word.ends_with('t'),
    })
}

// The numbers of one digit in a word.
fn digits(alloc: Global, word: &str) -> Result<Vec<u32>, Memory> {
    let mut numbers = Vec::new(alloc);
    for c in word.chars() {
        if let Some(number) = c.to_digit(10) {
            numbers.push(number)?;
        }
    }
    Ok(numbers)
}

// The modules of a graph.
fn rows_of(alloc: Global, graph: &str) -> Result<Vec<Row>, Memory> {
    let mut rows = Vec::new(alloc);
    for word in graph.split(',') {
        rows.push(row_of(alloc, word)?)?;
    }
    Ok(rows)
}

// A node for each module, in which nothing is written.
fn blank_nodes(alloc: Global, rows: &[Row]) -> Result<Nodes, Memory>
    ensures { IfOk result (IsBlank (length rows.now)) }
{
    let mut nodes = Nodes::new(alloc);
    for _ in rows {
        nodes.add(alloc)?;
    }
    Ok(nodes)
}

// These modules, of which nothing is evaluated.
fn opened(alloc: Global, rows: Vec<Row>) -> Result<EvalHost<Page>, Memory>
    ensures { IfOk result (MayGoOn (λ p. p.rows.items) (λ p. p.order.items) (λ r. r.targets.items)
        (λ r. r.awaits)) }
{
    hosts_stay_between::<Page>();
    let nodes = blank_nodes(alloc, rows.as_slice())?;
    Ok(EvalHost {
        nodes,
        promises: Promises::new(alloc),
        bodies: Page {
            rows,
            order: Vec::new(alloc),
        },
        alloc,
    })
}

// Evaluates a module.
fn evaluated(host: &mut EvalHost<Page>, alloc: Global, m: u32) -> Result<PromiseId, Memory>
    requires { MayGoOn (λ p. p.rows.items) (λ p. p.order.items) (λ r. r.targets.items)
        (λ r. r.awaits) host.old }
    ensures { OnOk result (MayGoOn (λ p. p.rows.items) (λ p. p.order.items) (λ r. r.targets.items)
        (λ r. r.awaits) host.new) }
{
    hosts_may_evaluate::<Page>();
    if (m as usize) < host.bodies.rows.len() {
        match evaluate(alloc, host, ModuleId(m)) {
            Ok(promise) => Ok(promise),
            Err(_end) => Err(Memory),
        }
    } else {
        Err(Memory)
    }
}

// The body of a module, which awaits, has ended normally.
fn ended(host: &mut EvalHost<Page>, m: u32) -> Result<(), Memory>
    requires { MayGoOn (λ p. p.rows.items) (λ p. p.order.items) (λ r. r.targets.items)
        (λ r. r.awaits) host.old }
    ensures { OnOk result (MayGoOn (λ p. p.rows.items) (λ p. p.order.items) (λ r. r.targets.items)
        (λ r. r.awaits) host.new) }
{
    if (m as usize) < host.bodies.rows.len() {
        match fulfilled(host, ModuleId(m)) {
            Ok(()) => Ok(()),
            Err(_end) => Err(Memory),
        }
    } else {
        Err(Memory)
    }
}

// It has ended by a throw.
fn failed(host: &mut EvalHost<Page>, m: u32) -> Result<(), Memory>
    requires { MayGoOn (λ p. p.rows.items) (λ p. p.order.items) (λ r. r.targets.items)
        (λ r. r.awaits) host.old }
    ensures { OnOk result (MayGoOn (λ p. p.rows.items) (λ p. p.order.items) (λ r. r.targets.items)
        (λ r. r.awaits) host.new) }
{
    if (m as usize) < host.bodies.rows.len() {
        rejected(host, ModuleId(m), &Value::Bool(false))
    } else {
        Err(Memory)
    }
}

// How far the evaluation of a module has come, in a word.
fn phase_of(host: &EvalHost<Page>, m: u32) -> &'static str {
    match host.nodes.phase(m) {
        Phase::Evaluated => "evaluated",
        Phase::EvaluatingAsync => "waiting",
        Phase::Evaluating => "walked",
        Phase::NotEntered => "untouched",
    }
}

// With what a promise was settled, in a word.
fn settled_as(how: &Settled) -> &'static str {
    match how {
        Settled::Fulfilled(Value::Undefined) => "fulfilled",
        Settled::Rejected(Value::Bool(true)) => "true",
        Settled::Rejected(Value::Bool(false)) => "false",
        _ => "otherwise",
    }
}

fn promise_of(host: &EvalHost<Page>, promise: PromiseId) -> &'static str {
    match host.promises.settled(promise) {
        Some(how) => settled_as(how),
        None => {
            if host.promises.is_pending(promise) {
                "pending"
            } else {
                "none"
            }
        }
    }
}

// Whether a promise is the first one.
fn place_of(promises: &[PromiseId], promise: PromiseId) -> &'static str {
    match promises.first() {
        Some(first) if *first == promise => "first",
        _ => "another",
    }
}

// Whether a word holds of the module or of the promise with this number: no word is said of both.
fn is_so(host: &EvalHost<Page>, promises: &[PromiseId], word: &str, number: u32) -> bool {
    let of_promise = match promises.get(number as usize) {
        Some(promise) => {
            word == promise_of(host, *promise) || word == place_of(promises, *promise)
        }
        None => false,
    };
    of_promise || word == phase_of(host, number)
}

// Whether the bodies of these modules have begun, in this order.
fn has_run(host: &EvalHost<Page>, alloc: Global, order: &str) -> Result<bool, Memory> {
    Ok(digits(alloc, order)?.as_slice() == host.bodies.order.as_slice())
}

// The number that a word begins with, or one that no module has.
fn number_of(word: &str) -> u32 {
    match word.chars().next() {
        Some(c) => c.to_digit(10).unwrap_or(9),
        None => 9,
    }
}

// Does the call that a word says, and keeps the promise of an evaluation; or whether it holds.
fn does(
    host: &mut EvalHost<Page>,
    alloc: Global,
    promises: &mut Vec<PromiseId>,
    word: &str,
    of: &str,
) -> Result<bool, Memory>
    requires { MayGoOn (λ p. p.rows.items) (λ p. p.order.items) (λ r. r.targets.items)
        (λ r. r.awaits) host.old }
    ensures { OnOk result (MayGoOn (λ p. p.rows.items) (λ p. p.order.items) (λ r. r.targets.items)
        (λ r. r.awaits) host.new) }
{
    if word == "evaluate" {
        let promise = evaluated(host, alloc, number_of(of))?;
        promises.push(promise)?;
        return Ok(true);
    }
    if word == "ended" {
        ended(host, number_of(of))?;
        return Ok(true);
    }
    if word == "failed" {
        failed(host, number_of(of))?;
        return Ok(true);
    }
    if word == "ran" {
        return has_run(host, alloc, of);
    }
    Ok(is_so(host, promises.as_slice(), word, number_of(of)))
}

// Whether all that a row says is so.
fn is_all_so(host: &mut EvalHost<Page>, alloc: Global, calls: &str) -> Result<bool, Memory>
    requires { MayGoOn (λ p. p.rows.items) (λ p. p.order.items) (λ r. r.targets.items)
        (λ r. r.awaits) host.old }
{
    let mut promises = Vec::new(alloc);
    for call in calls.split(' ') {
        let (word, of) = call.split_once(':').unwrap_or((call, ""));
        if !does(host, alloc, &mut promises, word, of)? {
            return Ok(false);
        }
    }
    Ok(true)
}

// A graph of modules, with commas between; and behind ` | ` calls for it and what holds then, in their order. Calls are
// `evaluate`, whose promises are counted, and `ended` and `failed`, where a body that awaits has ended normally or by a throw.
// Of modules is said which bodies `ran`, in which order, and which are `evaluated`, `waiting` or `untouched`; of promises
// which are `pending`, `fulfilled`, rejected with `true` or `false`, and whether each is the `first` or `another`.
//
// Bodies run in the order in which the walk leaves their modules, each once. The member of a cycle that awaits holds back the
// root, and a module evaluated later gets the promise of the root. What waits goes on in the order in which the walk left it;
// a rejection reaches all that wait, and no further body begins. Behind a throw no module is entered, and each later
// evaluation of the module gives the error. A body ends once: what comes for a module that is evaluated changes nothing.
const GRAPHS: &str = "\
1,2, | evaluate:0 ran:210 fulfilled:0 evaluated:0 evaluated:1 evaluated:2 evaluate:0 first:1 evaluate:1 another:2 fulfilled:2 ran:210
1,0a | evaluate:0 ran:1 pending:0 waiting:0 waiting:1 evaluate:1 first:1 ended:1 ran:10 fulfilled:0 evaluated:0 evaluated:1
12,3,3,a | evaluate:0 ran:3 pending:0 ended:3 ran:3120 fulfilled:0
12,3,3,a | evaluate:0 failed:3 ran:3 false:0 evaluated:0 evaluated:1 evaluated:2 evaluate:2 false:1
12,t, | evaluate:0 ran:1 true:0 evaluated:0 evaluated:1 untouched:2 evaluate:1 true:1 ran:1
12,3,3,a | evaluate:0 ended:3 ended:3 failed:3 ran:3120 fulfilled:0
12,3,3,a | evaluate:0 failed:3 ended:3 ran:3 false:0 evaluated:0";

// Whether a row of `GRAPHS` is as it says.
fn is_row_so(alloc: Global, row: &str) -> Result<bool, Memory> {
    let Some((graph, calls)) = row.split_once(" | ") else {
        return Ok(false);
    };
    let mut host = opened(alloc, rows_of(alloc, graph)?)?;
    is_all_so(&mut host, alloc, calls)
}

// The first row that isn't as it says, if there is one.
fn wrong_row(alloc: Global) -> Result<Option<&'static str>, Memory> {
    for row in GRAPHS.lines() {
        if !is_row_so(alloc, row)? {
            return Ok(Some(row));
        }
    }
    Ok(None)
}

#[test]
fn graphs_are_evaluated_as_the_standard_says(rt: HostRuntime) -> Result<(), Memory> {
    assert_eq!(rt; wrong_row(rt.alloc())?, None);
    assert!(rt; GRAPHS.lines().count() == 7);
    Ok(())
}
