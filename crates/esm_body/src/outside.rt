// Code under way as what its functions run over.
use crate::importer::Importer;
use crate::imports::import_from;
use crate::inside::Inside;
use crate::members::member_of;
use crate::names::{copied, owned, tell, tell_read, throw_named, throw_new};
use crate::world::print_line;
use crate::writes::throw_wrote;
use esm_base::{Memory, ModuleId};
use esm_env::Read;
use esm_expr_eval::{ExprEnd, Out, error_from, sum_of};
use esm_rewriting::Stop;
use esm_row_machine::Outside;
use esm_rows::{Row, lower};
use esm_values::{FaultKind, RcText, Value};

impl<'a, I: Importer> Outside for Inside<'a, I> {
    ghost use Rattle.esm_body.specs.Inner.Functions.{KeepsBody, keeps_both, keeps_itself, owned_by, still_there};
    ghost use Rattle.esm_body.specs.Inner.World.{CodeIsWhole, state_in};

    ghost Seen = { I.Seen };

    ghost modules = { I.modules };

    ghost linked = { I.linked };

    ghost begins = { I.begins };

    ghost owns = { owned_by I.modules };

    ghost state = { state_in I.seen };

    ghost ready = { CodeIsWhole I.seen I.modules I.linked I.fits I.begins };

    ghost keeps = { KeepsBody I.seen I.modules I.linked I.fits I.begins };

    ghost keeps_itself = { keeps_itself I.seen I.modules I.linked I.fits I.begins };

    ghost keeps_both = { keeps_both I.seen I.modules I.linked I.fits I.begins };

    ghost stays = { still_there I.seen I.modules I.linked I.fits I.begins };

    fn step(&mut self) -> Result<(), Stop> {
        esm_resolve::laws::shared_set();
        self.engine.log.step(1)
    }

    fn fault(&mut self, kind: FaultKind, message: &str) -> Result<Value, Stop> {
        match throw_new(self.alloc, self.errors, kind, message) {
            Ok(error) => Ok(error),
            Err(Memory) => Err(Stop::Memory),
        }
    }

    fn fault_named(&mut self, kind: FaultKind, name: &str, words: &str) -> Result<Value, Stop> {
        match throw_named(self.alloc, self.errors, kind, name, words) {
            Ok(error) => Ok(error),
            Err(Memory) => Err(Stop::Memory),
        }
    }

    fn read(&mut self, m: ModuleId, name: &str) -> Result<Out, Stop> {
        esm_env::laws::reads_right();
        esm_resolve::laws::shared_set();
        match owned(self.envs.read(m, name)) {
            Ok(found) => match tell(self.alloc, self.errors, name, found) {
                Ok(out) => Ok(out),
                Err(Memory) => Err(Stop::Memory),
            },
            Err(Memory) => Err(Stop::Memory),
        }
    }

    #[inline(always)]
    fn read_own(&mut self, m: ModuleId, place: u32) -> Result<Out, Stop> {
        esm_env::laws::reads_right();
        esm_resolve::laws::shared_set();
        let at = place as usize;
        match self.envs.value(m, at) {
            Read::Value(value) => match copied(value) {
                Ok(value) => Ok(Out::Value(value)),
                Err(Memory) => Err(Stop::Memory),
            },
            missing => match tell_read(self.alloc, self.errors, self.envs.name_at(m, at), missing) {
                Ok(out) => Ok(out),
                Err(Memory) => Err(Stop::Memory),
            },
        }
    }

    fn write(&mut self, m: ModuleId, name: &str, value: Value) -> Result<Option<Value>, Stop> {
        esm_env::laws::writes_right();
        let wrote = self.envs.write(m, name, value);
        match throw_wrote(self.alloc, self.errors, name, wrote) {
            Ok(thrown) => Ok(thrown),
            Err(Memory) => Err(Stop::Memory),
        }
    }

    fn member(&mut self, of: Value, name: &str) -> Result<Out, Stop> {
        esm_resolve::laws::shared_set();
        match member_of(self.alloc, self.errors, self.envs, self.imports, of, name) {
            Ok(out) => Ok(out),
            Err(Memory) => Err(Stop::Memory),
        }
    }

    fn add(&mut self, left: &Value, right: &Value) -> Result<Out, Stop> {
        esm_resolve::laws::shared_set();
        let alloc = self.alloc;
        match sum_of(alloc, left, right, self) {
            Ok(out) => Ok(out),
            Err(ExprEnd::Stopped(stop)) => Err(stop),
            Err(ExprEnd::Memory) => Err(Stop::Memory),
        }
    }

    fn print(&mut self, values: &[Value]) -> Result<Out, Stop> {
        esm_resolve::laws::shared_set();
        match self.engine.log.step(1) {
            Ok(()) => match print_line(self, values) {
                Ok(()) => Ok(Out::Value(Value::Undefined)),
                Err(stop) => Err(stop),
            },
            Err(stop) => Err(stop),
        }
    }

    fn new_error(&mut self, of: &Value) -> Result<Out, Stop> {
        esm_resolve::laws::shared_set();
        match self.engine.log.step(1) {
            Ok(()) => match error_from(of, self) {
                Ok(out) => Ok(out),
                Err(ExprEnd::Stopped(stop)) => Err(stop),
                Err(ExprEnd::Memory) => Err(Stop::Memory),
            },
            Err(stop) => Err(stop),
        }
    }

    fn import(&mut self, m: ModuleId, of: Value) -> Result<Out, Stop> {
        esm_resolve::laws::shared_set();
        match self.engine.log.step(1) {
            Ok(()) => match import_from(self, m, of) {
                Ok(promise) => Ok(Out::Value(promise)),
                Err(stop) => Err(stop),
            },
            Err(stop) => Err(stop),
        }
    }

    fn url(&self, m: ModuleId) -> Result<Value, Memory> {
        match RcText::copy(self.alloc, self.imports.url(m)) {
            Ok(text) => Ok(Value::Text(text)),
            Err(Memory) => Err(Memory),
        }
    }

    fn row(&self, m: ModuleId, function: u32) -> Result<Option<Row>, Memory> {
        match self.envs.scope(m) {
            Some(scope) => lower(self.alloc, scope, function),
            None => Ok(None),
        }
    }
}
