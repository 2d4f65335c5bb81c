// What a call returned, as the number for C and what is set in what was lent.
ghost use Rattle.std.specs.Prelude.{◌≡◌};
ghost use Rattle.model.specs.Calls.{left};
ghost use Rattle.export.specs.Reports.{reading_report, writing_report, permission_report, started_report, told, stepped_report, counted, played_report, spent, batched_report};

use crate::answer::answer_words;
use crate::refusal::verdict_number;
use crate::state::packed;
use lines::number::refusal_number;
use model::call::{Batched, Permission, Played, Started, Stepped, Stop, Writing};
use model::refusal::RefusedAt;

pub fn report_reading(reading: Result<(), RefusedAt>, at: &mut u64) -> u32
    ensures { left result at.new ≡ reading_report reading }
{
    match reading {
        Ok(()) => {
            *at = 0;
            0
        }
        Err(e) => {
            *at = e.at as u64;
            refusal_number(e.refusal)
        }
    }
}

pub fn report_writing(writing: Writing, wrote: &mut u64) -> u32
    ensures { left result wrote.new ≡ writing_report writing }
{
    match writing {
        Ok(n) => {
            *wrote = n as u64;
            0
        }
        Err(r) => {
            *wrote = 0;
            refusal_number(r)
        }
    }
}

pub fn report_permission(permission: Permission, granted: &mut u32) -> u32
    ensures { left result granted.new ≡ permission_report granted.old permission }
{
    match permission {
        Ok(yes) => {
            *granted = u32::from(yes);
            0
        }
        Err(r) => refusal_number(r),
    }
}

pub fn report_started(started: Started, state: &mut [u32; 121]) -> u32
    ensures { left result state.new ≡ started_report started }
{
    *state = packed(started.state);
    verdict_number(started.verdict)
}

pub fn report_stepped(stepped: Stepped, state: &mut [u32; 121], answer: &mut [u32; 5]) -> u32
    ensures { told result state.new answer.new
        ≡ stepped_report state.old answer.old stepped }
{
    match stepped.reply {
        Ok(a) => {
            *state = packed(stepped.state);
            *answer = answer_words(a);
            0
        }
        Err(r) => refusal_number(r),
    }
}

pub fn report_played(played: Played, state: &mut [u32; 121], events: &mut u64, at: &mut u64) -> u32
    ensures { counted result state.new events.new at.new
        ≡ played_report state.old played }
{
    match played.close {
        Ok(()) => {
            *state = packed(played.state);
            *events = played.events as u64;
            *at = 0;
            0
        }
        Err(Stop::Broken(e)) => {
            *state = packed(played.state);
            *events = played.events as u64;
            *at = e.at as u64;
            refusal_number(e.refusal)
        }
        Err(Stop::Refused(r)) => {
            *events = 0;
            *at = 0;
            refusal_number(r)
        }
    }
}

pub fn report_batched(batched: Batched, state: &mut [u32; 121], steps: &mut u64) -> u32
    ensures { spent result state.new steps.new
        ≡ batched_report state.old batched }
{
    match batched.ending {
        Ok(_) => {
            *state = packed(batched.state);
            *steps = batched.steps;
            0
        }
        Err(r) => {
            *steps = 0;
            refusal_number(r)
        }
    }
}
