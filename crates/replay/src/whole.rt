ghost use Rattle.std.specs.Prelude.{◌≡◌};
ghost use Rattle.replay.specs.Games.{seen_replay};
ghost use Rattle.replay.specs.Laws.{Stands, NotTwenty, FilesOfGames};
ghost use Rattle.replay.specs.Whole.{replayed};

use crate::card::Refused;
use crate::game::{Game, Opened, Stopped};
use crate::playing::play;

// Plays a file from its start to its end or its first fault.
pub fn replay(file: &[u8]) -> Result<Game, Stopped>
    ensures value { seen_replay result ≡ replayed file.now }
    ensures life { Stands (seen_replay result).game }
    ensures numbers { NotTwenty (seen_replay result).fault }
    ensures files { FilesOfGames }
{
    let Opened { game, next, .. } = Game::open(file)?;
    let Game { mut table, card } = game;
    match play(&mut table, card, file, next) {
        Ok(card) => Ok(Game { table, card }),
        // The borrow check does not cover one pattern for both.
        Err(refused) => {
            let Refused { fault, card } = refused;
            let game = Some(Game { table, card });
            Err(Stopped { fault, game })
        }
    }
}
