//! Arbitrary steps as lines, the same in each run.

use crate::told::{say, say_number};
use crate::words::{behind, number, word};

// A number below the bound, by a linear congruential generator with this state.
fn below(state: &mut usize, bound: usize) -> usize {
    *state = state
        .wrapping_mul(6_364_136_223_846_793_005)
        .wrapping_add(1_442_695_040_888_963_407);
    (*state >> 33).checked_rem(bound).unwrap_or(0)
}

// The steps of a lot, of which there are 80, and the 16 questions to it: how often each form comes
// up, and the form. T stands for a thread, C for a caller, K for a key, U for a token, DS for the
// decisions of a filter and R for what a requeue does.
const STEPS: &str = "3 register\n1 retire T\n1 enter T K no 0 untimed\n8 enter T K yes 0 untimed\n\
    11 enter T K yes 5 timed\n4 one K U\n1 all K U\n3 filter K DS U\n8 requeue K K R U\n\
    10 deadline T\n10 resolve T\n7 acquire T K\n6 release T K\n1 trim\n6 return T\n6 list K\n\
    6 records T K\n4 size";

// The 69 steps of an interleaved lot.
const FINE_STEPS: &str = "2 register\n1 retire T\n1 enter T K no 0 untimed\n\
    4 enter T K yes 0 untimed\n8 enter T K yes 5 timed\n2 begin C one K U\n1 begin C all K U\n\
    1 begin C filter K DS U\n3 begin C requeue K K R U\n6 commit C\n7 end C\n6 wake C\n\
    5 deadline T\n5 read T\n5 look T\n7 return T\n2 acquire T K\n1 trim\n2 release T K";

// The 40 steps of a fair mutex and its condition variable.
const FAIR_STEPS: &str =
    "2 register\n1 retire T\n2 notify-all\n5 notify-one\n6 lock T\n6 unlock T\n\
    6 return T\n6 wait T\n6 leave T";

// The keys, of which 0 and 13 have place 0 of 16, decisions, and what a requeue does.
const KEYS: &str = "0 13 1 2 7";

const DECISIONS: &str = "- U S X UU US SU SS UX SX SSU SUS USU UUS SSX SUX USX XUU SSSU SUSU UUUU \
    USSUS SSUSX USUSUS SSSSSU SSUSUUS UUUUUUU";

const REQUEUES: &str = "abort one-rest all one requeue-one";

// The form that comes at this place, where each stands as often as it comes up.
fn form_at(forms: &str, place: usize) -> &str {
    let mut left = place;
    for form in forms.lines() {
        let often = number(form, 0);
        if left < often {
            return behind(form);
        }
        left = left.wrapping_sub(often);
    }
    ""
}

// Writes the word of a form, or what it stands for. One thread more than the machine has comes up,
// so that some steps are of nobody.
fn write_word(state: &mut usize, first: &str, wanted: &str, text: &mut String) {
    match wanted {
        "T" => say_number(text, " ", below(state, number(first, 1).wrapping_add(1))),
        "C" => say_number(text, " ", below(state, number(first, 2))),
        "U" => say_number(text, " ", below(state, 1_000)),
        "K" => write_one_of(state, KEYS, 5, text),
        "DS" => write_one_of(state, DECISIONS, 27, text),
        "R" => write_one_of(state, REQUEUES, 5, text),
        _ => {
            say(text, " ");
            say(text, wanted);
        }
    }
}

fn write_one_of(state: &mut usize, words: &str, count: usize, text: &mut String) {
    say(text, " ");
    say(text, word(words, below(state, count)));
}

/// Writes the line of this number of a list for the machine that the first line names. Of each
/// 2,000 lines, threads leave in the last 500: none enters then, and none registers.
pub fn write_line(state: &mut usize, first: &str, count: usize, text: &mut String) {
    let (forms, places) = match word(first, 0) {
        "fair" => (FAIR_STEPS, 40),
        "interleaved" => (FINE_STEPS, 69),
        "record" => (STEPS, 80),
        _ => (STEPS, 96),
    };
    let chosen = form_at(forms, below(state, places));
    let stays = count % 2_000 < 1_500 || !matches!(word(chosen, 0), "register" | "enter");
    let form = if stays { chosen } else { "retire T" };
    say(text, word(form, 0));
    for wanted in form.split(' ').skip(1) {
        write_word(state, first, wanted, text);
    }
    say(text, "\n");
}
