//! Laws of the definitions, as functions without effect.
ghost use Rattle.esm_body.specs.Importers.{ImportsAreLawful};
ghost use Rattle.esm_machine.specs.Evaluating.{EvaluationIsOfTheWorld};
ghost use Rattle.esm_machine.specs.Following.{BodiesAreOfTheWorld, LinkingIsOfTheWorld};
ghost use Rattle.esm_machine.specs.Held.{LoadingIsOfTheWorld, OpensAsWorld, RecordsAreAdded};
ghost use Rattle.esm_machine.specs.Arrivals.{ArrivalsAreOfTheWorld};
ghost use Rattle.esm_machine.specs.FitsById.{WorldsFitById};
ghost use Rattle.esm_machine.specs.Steps.{StepsAreOfTheWorld};
ghost use Rattle.esm_machine.specs.ModuleStore.{ImportsAreThere};
ghost use Rattle.esm_machine.specs.Kept.{RecordsShow};
ghost use Rattle.esm_machine.specs.Represents.{KeepsItsMap, OpeningRepresents, TellsTheRun, TurnsAreTaken};
ghost use Rattle.esm_machine.specs.SeenScopes.{ScopesStay};
ghost use Rattle.esm_machine.specs.Seen.{BeginsById, Fits, linked, modules};

/// What bodies rely on holds of what lies outside of them: what fits stays so by all that bodies do to promises and errors, and
/// an `import()` has one outcome.
pub fn imports_are_lawful()
    ensures { ImportsAreLawful modules linked Fits BeginsById }
{}

/// What is linked is there, by ids, and exports can be resolved from each id, whatever the records and the loads are.
pub fn imports_are_there()
    ensures { ImportsAreThere }
{}

/// As long as nothing is lost, the records have what is seen of modules; and where nothing was refused, what is Linked and
/// what is past New is seen to be, and an open ask has no record.
pub fn records_show()
    ensures { RecordsShow }
{}

/// Scopes that are right for what is seen of modules, and of loaded modules alone, stay so over an answer, a call of `import()`
/// and, where nothing was refused, the end of a fetch; behind bodies, where they are right, they are of loaded modules alone
/// still. Where nothing was refused they are right for the records with their trees, and the other way round where they are
/// of what is past New alone.
pub fn scopes_stay()
    ensures { ScopesStay }
{
    esm_link::laws::scopes_are_local()
}

/// What bodies do by ids, they do in the world.
pub fn bodies_are_of_the_world()
    ensures { BodiesAreOfTheWorld }
{}

/// Linking by ids is linking in the world, whatever the order in which the world has what is linked.
pub fn linking_is_of_the_world()
    ensures { LinkingIsOfTheWorld }
{}

/// A record more leaves the world that is stood for: what is known keeps its URL.
pub fn records_are_added()
    ensures { RecordsAreAdded }
{}

/// A machine that has asked for its entry stands for the opening world.
pub fn opens_as_world()
    ensures { OpensAsWorld }
{}

/// What loading does by ids, it does in the world.
pub fn loading_is_of_the_world()
    ensures { LoadingIsOfTheWorld }
{}

/// A machine that has asked for its entry represents no delivery yet.
pub fn opening_represents()
    ensures { OpeningRepresents }
{}

/// Whatever standard run a machine represents, it tells what that run shows.
pub fn tells_the_run()
    ensures { TellsTheRun }
{}

/// The import map of a machine that hasn't stopped is that of the run that it represents.
pub fn keeps_its_map()
    ensures { KeepsItsMap }
{
    esm_world::laws::keeps_maps()
}

/// A machine that has taken a turn of each world that it shows represents one delivery more.
pub fn turns_are_taken()
    ensures { TurnsAreTaken }
{}

/// What the steps of a job do by ids, they do in the world: the first job, its result, promises, errors, the entry, what is
/// linked, and a body that goes on behind its await, up to the limit that stops it.
pub fn steps_are_of_the_world()
    ensures { StepsAreOfTheWorld }
{}

/// Where the world that is stood for fits, what is held fits by ids, as bodies and evaluation ask for it, but for nodes of
/// linked modules that nothing has entered, scopes, and what holds between two calls of evaluation.
pub fn worlds_fit_by_id()
    ensures { WorldsFitById }
{}

/// What the end of a fetch that is allowed, with the record of a module, and the answer of a pending request do by ids, they
/// do in the world, up to the limit that stops them.
pub fn arrivals_are_of_the_world()
    ensures { ArrivalsAreOfTheWorld }
{
    esm_resolve::laws::shared_set()
}

/// Bodies with all that they read and write beside the promises, as contracts see them.
pub trait ShownBodies {
    ghost use Rattle.std.specs.Prelude.{ℕ};
    ghost use Rattle.esm_base.specs.declared.limits.Limit.{Limit};
    ghost use Rattle.esm_values.specs.Errors.{Errors};
    ghost use Rattle.esm_env.specs.Cells.{Cells};
    ghost use Rattle.esm_rewriting.specs.State.{Engine};
    ghost use Rattle.esm_eval.specs.Calls.{CodeCalls};
    ghost use Rattle.esm_eval.specs.Host.{Outside};
    ghost use Rattle.esm_machine.specs.Seen.{Seen};

    /// What lies outside of bodies.
    ghost seen: { Self → Seen };
    /// The errors that were made.
    ghost errors: { Self → Errors };
    /// The cells that were written.
    ghost cells: { Self → Cells ℕ };
    /// The engine.
    ghost engine: { Self → Engine ℕ };
    /// What a call for a body does.
    ghost acts: { CodeCalls (Outside Self) Limit };
}

/// Evaluating a module by ids, and what follows the end of a body, are so in the world, where each call for a body is.
pub fn evaluation_is_of_the_world<B: ShownBodies>()
    ensures { EvaluationIsOfTheWorld B.seen B.errors B.cells B.engine B.acts }
{}
