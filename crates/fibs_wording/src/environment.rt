//! What a terminal is: what the environment of the program says of it, the user's own settings, what the clock of its
//! place shows, and the page that is written there next.

pub mod broken;
mod clock;
mod config;
mod environment;
mod page;
pub mod pieces;
mod record;
mod settings;
pub mod shown;
mod zone;

pub use clock::ClockTime;
pub use config::{Config, Setting, Telling, read_numbers, read_place, read_setting};
pub use environment::terminal_settings;
pub use page::Page;
pub use record::RecordFile;
pub use settings::Settings;
pub use zone::{Clocks, Zone};
