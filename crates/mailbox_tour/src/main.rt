//! A tour of the mail relay: a user leaves a text for another, and the relay delivers it, loses it, changes it or keeps silent.
//!
//! Each scene is written as `== NAME`, a line for the directory and one for the witness's store; and behind `--` which mails the logs
//! tell of that the store has, what it says of each node, and a proof against the relay or `none`.
//!
//! [`tours`] has the nodes and the witness, [`scenes`] what happens, [`faulty`] the relays that lie, and [`mails`] what the logs tell.
#![tactic(auto)]

mod faulty;
mod mails;
mod scenes;

use anyhow::Result;
use authenticators::Directory;
use mailbox::{Mailbox, RELAY};
use mails::write_mails;
use scenes::{Scene, Witness};
use tours::network;
use tours::writing::{write_answers, write_head, write_store};

/// Plays a scene before a witness, and writes it.
fn write_scene(rt: &HostRuntime, scene: Scene, directory: &Directory) -> Result<()> {
    let alloc = rt.alloc();
    let mut witness = Witness::new(alloc, Mailbox, directory)?;
    scene.play(alloc, directory, &mut witness)?;
    write_head(rt, scene.name(), directory)?;
    write_store(rt, &witness)?;
    println!(rt; "--")?;
    write_mails(rt, &witness)?;
    write_answers(rt, &witness, RELAY)
}

fn main(rt: HostRuntime) -> Result<()> {
    let directory = network::directory(rt.alloc())?;
    for scene in Scene::ALL {
        write_scene(&rt, scene, &directory)?;
    }
    Ok(())
}
