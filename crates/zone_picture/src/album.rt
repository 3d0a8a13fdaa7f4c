use crate::error::PictureError;
use crate::view::View;
use script_core::{Command, PoolBlocks, Reply, Watch, reply_text};
use std::alloc::{AllocError, Global};
use zone_core::{Opening, ZoneIn};

/// How many commands may be drawn. With a panel before each, one after it and one at the end, 17 panels are the most.
const MOST_COMMANDS: u32 = 8;

/// When a zone is as a panel shows it, and the reply to the command that was answered then, if one was.
#[derive(Drop)]
pub struct Caption {
    pub title: String,
    pub reply: String,
}

/// A zone, with the captions of the times at which it was so.
#[derive(Drop)]
pub struct Panel {
    pub captions: Vec<Caption>,
    pub view: View,
}

/// The panels of a script. It watches the run, and keeps the zone before each command that moves pages and after it, and the latest one.
#[derive(Drop)]
pub struct Album {
    alloc: Global,
    panels: Vec<Panel>,
    commands: u32,
    command: Option<Command>,
    latest: Option<View>,
    error: Option<PictureError>,
}

impl Album {
    /// No panel yet.
    pub fn new(alloc: Global) -> Self {
        Album {
            alloc,
            panels: Vec::new(alloc),
            commands: 0,
            command: None,
            latest: None,
            error: None,
        }
    }

    /// The panels, once the script has ended.
    pub fn into_panels(mut self) -> Result<Vec<Panel>, PictureError> {
        self.end()?;
        Ok(self.panels)
    }

    /// Shows the zone at the end of the script.
    fn end(&mut self) -> Result<(), PictureError> {
        if let Some(error) = self.error {
            return Err(error);
        }
        if let Some(view) = self.latest.take() {
            let title = String::from_str(self.alloc, "At the end")?;
            self.add(view, title, "")?;
        }
        if self.panels.is_empty() {
            return Err(PictureError::NoZone);
        }
        Ok(())
    }

    /// Shows the zone before a command that is drawn.
    fn show_before<Z: Opening>(
        &mut self,
        command: &Command,
        zone: &ZoneIn<Z>,
    ) -> Result<(), PictureError> {
        let Some(title) = title_of(self.alloc, "Before", command)? else {
            return Ok(());
        };
        let view = View::of(self.alloc, zone)?;
        self.add(view, title, "")
    }

    /// Shows the zone after a command.
    fn show_after<Z: Opening>(
        &mut self,
        command: &Command,
        reply: &Reply,
        zone: &ZoneIn<Z>,
    ) -> Result<(), PictureError> {
        let view = View::of(self.alloc, zone)?;
        self.keep_after(command, reply, view)
    }

    /// Shows what the zone is after a command. After one that isn't drawn it is kept for the end.
    fn keep_after(
        &mut self,
        command: &Command,
        reply: &Reply,
        view: View,
    ) -> Result<(), PictureError> {
        let Some(title) = title_of(self.alloc, "After", command)? else {
            self.latest = Some(view);
            return Ok(());
        };
        self.latest = None;
        self.count()?;
        self.add(view, title, reply_text(reply).as_str().trim_end())
    }

    /// Counts a command that is drawn.
    fn count(&mut self) -> Result<(), PictureError> {
        if self.commands >= MOST_COMMANDS {
            return Err(PictureError::TooLarge);
        }
        self.commands += 1;
        Ok(())
    }

    /// A panel for a zone. Where the last panel shows it so already, that one has one more caption if there is a reply.
    fn add(&mut self, view: View, title: String, reply: &str) -> Result<(), PictureError> {
        if self.show(view)? || !reply.is_empty() {
            let reply = String::from_str(self.alloc, reply)?;
            self.caption(Caption { title, reply })?;
        }
        Ok(())
    }

    /// A panel for a zone where the last panel doesn't show it so. Whether there is one more.
    fn show(&mut self, view: View) -> Result<bool, AllocError> {
        if self.panels.last().is_some_and(|last| last.view == view) {
            return Ok(false);
        }
        let captions = Vec::new(self.alloc);
        self.panels.push(Panel { captions, view })?;
        Ok(true)
    }

    /// Adds a caption to the last panel.
    fn caption(&mut self, caption: Caption) -> Result<(), AllocError> {
        if let Some(last) = self.panels.last_mut() {
            last.captions.push(caption)?;
        }
        Ok(())
    }
}

impl Watch for Album {
    fn before<Z: Opening>(&mut self, command: &Command, zone: Option<&ZoneIn<Z>>) {
        self.command = Some(*command);
        if let (Some(zone), None) = (zone, self.error) {
            self.error = self.show_before(command, zone).err();
        }
    }

    fn after<Z: Opening>(&mut self, reply: &Reply, zone: Option<&ZoneIn<Z>>) {
        if let (Some(command), Some(zone), None) = (self.command, zone, self.error) {
            self.error = self.show_after(&command, reply, zone).err();
        }
    }
}

/// The caption of a command that moves pages, or may; None for any other.
fn title_of(alloc: Global, when: &str, command: &Command) -> Result<Option<String>, AllocError> {
    Ok(Some(match command {
        Command::Compact { zone } => format!(in alloc; "{when} compact {}", zone.get())?,
        Command::Pool {
            zone,
            count,
            blocks: PoolBlocks::Pageblocks,
        } => format!(in alloc; "{when} pool {} {}", zone.get(), count.get())?,
        Command::Pool {
            zone,
            count,
            blocks: PoolBlocks::OfOrder(order),
        } => format!(in alloc;
            "{when} pool {} {} {}",
            zone.get(),
            count.get(),
            order.get()
        )?,
        Command::During { zone } => format!(in alloc; "{when} during {zone}")?,
        _ => return Ok(None),
    }))
}
