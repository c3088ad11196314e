// Followers beside the history of a host.
use crate::fault::Fault;
use crate::scene::Scene;
use std::alloc::Global;
use test_row_words::put_command;

fn play_in(
    alloc: Global,
    scene: &mut Scene,
    commands: &str,
    out: &mut String,
) -> Result<(), Fault> {
    for command in commands.split(" | ") {
        put_command(out, command)?;
        scene.answer(alloc, command, out)?;
    }
    Ok(())
}

fn play(alloc: Global, rest: &str, out: &mut String) -> Result<(), Fault> {
    let mut scene = Scene::new(alloc)?;
    play_in(alloc, &mut scene, rest, out)
}

/// The answer to `follower`.
pub fn call(alloc: Global, verb: &str, rest: &str, out: &mut String) -> Result<bool, Fault> {
    if verb != "follower" {
        return Ok(false);
    }
    play(alloc, rest, out)?;
    Ok(true)
}
