//! What threads ask about postings, and what they are answered by the one that has the ledger.
ghost use Rattle.std.specs.Prelude.{◌≡◌, true};
ghost use Rattle.pay_page.specs.Words.{is_of_ledger};

use pay_page::Posted;
use pay_rules::Postings;
use std::alloc::{AllocError, Global};
use std::sync::{Condvar, Mutex, Wait};
use std::time::{Clock, Duration};

/// For how many seconds a thread waits for an answer.
const PATIENCE: u64 = 10;

/// What is asked: what was posted for an account, and the week from this Monday on.
#[derive(Clone, Copy)]
pub(crate) struct PostedQuestion {
    /// The account.
    pub account: u32,
    /// The Monday, counted from 1970-01-01.
    pub week: u32,
}

/// What one thread asks, and what it was answered.
#[derive(Drop)]
struct Place {
    /// How often was asked here, so that no answer is taken for a later question.
    ticket: u64,
    /// The question that is not answered yet.
    question: Option<PostedQuestion>,
    /// The answer: none where it is not known.
    answer: Option<Postings>,
}

/// The places of some threads.
#[derive(Drop)]
pub(crate) struct Desk {
    places: Mutex<Vec<Place>>,
    asked: Condvar,
    answered: Condvar,
}

impl Place {
    /// Where nothing was asked.
    fn new() -> Place {
        Place {
            ticket: 0,
            question: None,
            answer: None,
        }
    }

    /// Asks something anew.
    fn ask(&mut self, question: PostedQuestion) {
        self.ticket = self.ticket.wrapping_add(1);
        self.question = Some(question);
        self.answer = None;
    }

    /// Takes an answer, if it is one to what is asked.
    fn tell(&mut self, ticket: u64, answer: Option<Postings>) {
        if self.ticket == ticket && self.question.is_some() {
            self.question = None;
            self.answer = answer;
        }
    }

    /// Gives the answer, and asks no more.
    fn take(&mut self) -> Option<Postings> {
        self.question = None;
        self.answer.take()
    }
}

impl Desk {
    /// With so many places.
    pub fn new(alloc: Global, count: usize) -> Result<Desk, AllocError> {
        let mut places: Vec<Place> = Vec::new(alloc);
        for _ in 0..count {
            places.push(Place::new()).map_err(AllocError::from)?;
        }
        Ok(Desk {
            places: Mutex::new(places),
            asked: Condvar::new(),
            answered: Condvar::new(),
        })
    }

    /// What was posted, by the ledger; or that it is not known, also where no answer comes for long.
    pub fn ask<R: Wait + Clock>(&self, rt: &R, place: usize, question: PostedQuestion) -> Posted
        ensures { is_of_ledger result ≡ true }
    {
        match self.answer_to(rt, place, question) {
            Some(postings) => Posted::Known(postings),
            None => Posted::Unknown,
        }
    }

    /// The answer, if there is one.
    fn answer_to<R: Wait + Clock>(
        &self,
        rt: &R,
        place: usize,
        question: PostedQuestion,
    ) -> Option<Postings> {
        let mut places = self.places.lock(rt);
        places.get_mut(place)?.ask(question);
        self.asked.notify_one();
        let patience = Duration::from_secs(PATIENCE);
        let (mut places, _) = self
            .answered
            .wait_timeout_while(rt, places, patience, |places| is_open(places, place));
        places.get_mut(place)?.take()
    }

    /// Waits until something is asked, but no longer than this.
    pub fn wait<R: Wait + Clock>(&self, rt: &R, pause: Duration) {
        let places = self.places.lock(rt);
        let _ = self
            .asked
            .wait_timeout_while(rt, places, pause, |places| !has_question(places));
    }

    /// How many places there are.
    pub fn count<R: Wait>(&self, rt: &R) -> usize {
        self.places.lock(rt).len()
    }

    /// What is asked at a place, and its ticket.
    pub fn question<R: Wait>(&self, rt: &R, place: usize) -> Option<(u64, PostedQuestion)> {
        let places = self.places.lock(rt);
        let asked = places.get(place)?;
        let question = asked.question?;
        Some((asked.ticket, question))
    }

    /// Answers what was asked at a place by this ticket.
    pub fn tell<R: Wait>(&self, rt: &R, place: usize, ticket: u64, answer: Option<Postings>) {
        let mut places = self.places.lock(rt);
        if let Some(asked) = places.get_mut(place) {
            asked.tell(ticket, answer);
        }
        self.answered.notify_all();
    }
}

/// Whether a place waits for its answer.
fn is_open(places: &Vec<Place>, place: usize) -> bool {
    match places.get(place) {
        Some(asked) => asked.question.is_some(),
        None => false,
    }
}

/// Whether any place waits for an answer.
fn has_question(places: &Vec<Place>) -> bool {
    for asked in places {
        if asked.question.is_some() {
            return true;
        }
    }
    false
}
