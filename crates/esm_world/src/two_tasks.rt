//! A worked example of two pending requests of one URL: a whole standard run, as a function without effect.
ghost use Rattle.esm_world.specs.TwoTasks.{TwoTasks};

/// A module requests one URL by two specifiers: it is asked once, and each request is answered in a task of its own.
pub fn asks_twice()
    ensures { TwoTasks }
{}
