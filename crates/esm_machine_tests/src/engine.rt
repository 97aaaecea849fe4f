// A new engine of bodies.
use esm_body::Engine;

#[test]
fn new_engine(rt: HostRuntime) {
    let engine = Engine::new(rt.alloc(), false);
    assert!(rt; engine.log().is_empty());
    assert!(rt; engine.into_log().is_empty());
}
