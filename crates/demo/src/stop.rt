//! Why the tour ends early.
use reading::ReadingFault;
use rig::Refusal;
use std::io;
use thiserror::Error;

#[derive(Debug, Drop, Error)]
pub enum Stop {
    #[error("printing: {0}")]
    Io(#[from] io::Error),
    #[error("a call was refused: {0:?}")]
    Refused(#[from] Refusal),
    #[error("no report was made: {0:?}")]
    Unread(#[from] ReadingFault),
    #[error("power-good never came")]
    NeverGood,
}
