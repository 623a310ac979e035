// Stores and settings that are made, and the commands that are said to them until something else is made.
use super::command::Maker;
use super::failure::Failure;
use super::kind::{Kind, WithBoard};
use super::stand::Stand;
use super::store_subject::StoreSubject;
use super::subject::{Nothing, play};
use super::texts::Refused;
use boards::board::Board;
use boards::settings::Settings;
use parameters::image::{ImageStore, Unopened};
use parameters::made::MadeStore;
use parameters::table::TableStore;

pub fn on_table(stand: &mut Stand<'_>) -> Result<Option<Maker>, Failure> {
    stand.say("made table store")?;
    play(&mut StoreSubject(TableStore::new()), stand)
}

// Where the image is refused, nothing is made.
pub fn on_image(bytes: &mut [u8], stand: &mut Stand<'_>) -> Result<Option<Maker>, Failure> {
    match ImageStore::open(bytes) {
        Ok(store) => {
            stand.say("made image store")?;
            play(&mut StoreSubject(store), stand)
        }
        Err(Unopened { refusal, image: _ }) => {
            let number = refusal.number();
            stand.say(Refused { number, refusal })?;
            play(&mut Nothing, stand)
        }
    }
}

pub fn on_store(bytes: &mut [u8], stand: &mut Stand<'_>) -> Result<Option<Maker>, Failure> {
    let store = MadeStore::make(bytes);
    match &store {
        MadeStore::Image(_) => stand.say("made image store")?,
        MadeStore::Table(_, _) => stand.say("made table store")?,
    }
    play(&mut StoreSubject(store), stand)
}

pub fn on_settings(kind: Kind, stand: &mut Stand<'_>) -> Result<Option<Maker>, Failure> {
    stand.say(format_args!("made settings {kind}"))?;
    kind.apply(PlaySettings { stand })
}

// Plays on settings for a board.
#[derive(Drop)]
struct PlaySettings<'s, 'a> {
    stand: &'s mut Stand<'a>,
}

impl<'s, 'a> WithBoard for PlaySettings<'s, 'a> {
    type Outcome = Result<Option<Maker>, Failure>;

    fn with<B: Board + Drop>(self, board: B) -> Result<Option<Maker>, Failure> {
        play(&mut Settings::new(board), self.stand)
    }
}
