//! The service that answers requests, and changes nothing.
ghost use Rattle.std.specs.Prelude.{◌≡◌, IfOk};
ghost use Rattle.pay_web.specs.Gates.{IsAtPort};

use crate::hosts::Hosts;
use crate::pages::Pages;
use crate::question::question_of;
use crate::telling::answer_question;
use bytes::Bytes;
use http::Request;
use http_server::{Response, Service};
use std::alloc::{AllocError, Global};

/// Answers the requests of browsers at a port of this machine.
#[derive(Drop)]
pub struct Site<P> {
    alloc: Global,
    hosts: Hosts,
    pages: P,
}

impl<P: Drop> Site<P> {
    /// A site at this port, with these pages.
    pub fn new(alloc: Global, port: u16, pages: P) -> Result<Site<P>, AllocError>
        ensures hosts { IfOk result (λ it. IsAtPort port it.hosts) }
        ensures pages { IfOk result (λ it. it.pages ≡ pages) }
    {
        let hosts = Hosts::of_port(alloc, port)?;
        Ok(Site {
            alloc,
            hosts,
            pages,
        })
    }
}

impl<P: Pages> Service for Site<P> {
    ghost use Rattle.pay_web.specs.Answers.{Answers};

    ghost answers = { Answers P.Pages };

    fn call(
        &mut self,
        request: &Request<Bytes>,
        response: &mut Response,
    ) -> Result<(), AllocError> {
        let question = question_of(&self.hosts, request);
        // Nobody may correct here.
        answer_question(self.alloc, false, &self.pages, question, response)
    }
}
