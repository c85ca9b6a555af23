//! The rules that a header of one direction can break, by what both directions keep.
ghost use Rattle.std.specs.Prelude.{◌≡◌};
ghost use Rattle.beep_history.specs.Broken.{first_of, breaks_nul_shape};
ghost use Rattle.beep_exchange.specs.Kept.{breaks_not_continued, goes_on_request, changes_message, changes_reply, breaks_kind_changed, breaks_number_in_use, breaks_never_asked, breaks_early_reply, breaks_already_answered, breaks_out_of_turn, breaks_nul_not_after_ans, breaks_nul_too_soon, breaks_empty_answer, breaks_too_many_requests, breaks_too_many_answers, shape_tests, limit_tests, is_plain, takes_answers, judged};

use super::{Way, goes_on};
use beep_frame::{Head, Rule};
use beep_history::{MAX_ANSWERS, MAX_REQUESTS};

impl Way {
    /// The first rule that a header of this direction breaks, where `theirs` is the other one. Its
    /// cost is constant for the first frame of a reply to the oldest request that waits, and else
    /// bounded by what is kept.
    #[inline(always)]
    pub fn judge(&self, theirs: &Way, head: &Head) -> Option<Rule>
        ensures { result ≡ judged self.now theirs.now head.now }
    {
        // Most frames are so, and break no rule.
        if self.is_plain(head) && theirs.takes_answers(head) {
            return None;
        }
        match self.judge_shape(theirs, head) {
            Some(rule) => Some(rule),
            None => self.judge_limits(theirs, head),
        }
    }

    fn is_plain(&self, head: &Head) -> bool
        ensures { result ≡ is_plain self.now head.now }
    {
        head.kind.is_ans()
            && head.size > 0
            && match self.before {
                None => true,
                Some(before) => !before.more,
            }
    }

    fn takes_answers(&self, head: &Head) -> bool
        ensures { result ≡ takes_answers self.now head.now }
    {
        self.is_current(head.msgno)
            && self.answers.len() < MAX_ANSWERS as usize
            && !self.is_open()
            && match self.kind {
                None => true,
                Some(kind) => kind.is_ans(),
            }
    }

    fn judge_shape(&self, theirs: &Way, head: &Head) -> Option<Rule>
        ensures { result ≡ first_of (shape_tests self.now theirs.now head.now) }
    {
        if breaks_nul_shape(head) {
            Some(Rule::NulShape)
        } else if self.breaks_not_continued(head) {
            Some(Rule::NotContinued)
        } else if self.breaks_kind_changed(theirs, head) {
            Some(Rule::KindChanged)
        } else if self.breaks_number_in_use(head) {
            Some(Rule::NumberInUse)
        } else if theirs.breaks_never_asked(head) {
            Some(Rule::NeverAsked)
        } else if theirs.breaks_early_reply(head) {
            Some(Rule::EarlyReply)
        } else if theirs.breaks_already_answered(head) {
            Some(Rule::AlreadyAnswered)
        } else if theirs.breaks_out_of_turn(head) {
            Some(Rule::OutOfTurn)
        } else if theirs.breaks_nul_not_after_ans(head) {
            Some(Rule::NulNotAfterAns)
        } else if theirs.breaks_nul_too_soon(head) {
            Some(Rule::NulTooSoon)
        } else {
            None
        }
    }

    fn judge_limits(&self, theirs: &Way, head: &Head) -> Option<Rule>
        ensures { result ≡ first_of (limit_tests self.now theirs.now head.now) }
    {
        if theirs.breaks_empty_answer(head) {
            Some(Rule::EmptyAnswer)
        } else if self.breaks_too_many_requests(head) {
            Some(Rule::TooManyRequests)
        } else if theirs.breaks_too_many_answers(head) {
            Some(Rule::TooManyAnswers)
        } else {
            None
        }
    }

    fn breaks_not_continued(&self, head: &Head) -> bool
        ensures { result ≡ breaks_not_continued self.now head.now }
    {
        match self.before {
            None => false,
            Some(before) => before.more && before.msgno != head.msgno,
        }
    }

    fn breaks_kind_changed(&self, theirs: &Way, head: &Head) -> bool
        ensures { result ≡ breaks_kind_changed self.now theirs.now head.now }
    {
        if head.kind.is_nul() {
            self.goes_on_request(head)
        } else {
            self.changes_message(head) || (head.kind.is_reply() && theirs.changes_reply(head))
        }
    }

    fn goes_on_request(&self, head: &Head) -> bool
        ensures { result ≡ goes_on_request self.now head.now }
    {
        match self.before {
            None => false,
            Some(before) => goes_on(head, &before) && before.kind.is_msg(),
        }
    }

    fn changes_message(&self, head: &Head) -> bool
        ensures { result ≡ changes_message self.now head.now }
    {
        match self.before {
            None => false,
            Some(before) => goes_on(head, &before) && !before.kind.is_same(head.kind),
        }
    }

    fn changes_reply(&self, head: &Head) -> bool
        ensures { result ≡ changes_reply self.now head.now }
    {
        self.is_current(head.msgno)
            && match self.kind {
                None => false,
                Some(kind) => !kind.is_same(head.kind),
            }
    }

    fn breaks_number_in_use(&self, head: &Head) -> bool
        ensures { result ≡ breaks_number_in_use self.now head.now }
    {
        self.is_new_request(head) && self.has_whole(head.msgno)
    }

    fn breaks_never_asked(&self, head: &Head) -> bool
        ensures { result ≡ breaks_never_asked self.now head.now }
    {
        head.kind.is_reply() && !self.is_current(head.msgno) && !self.has_number(head.msgno)
    }

    fn breaks_early_reply(&self, head: &Head) -> bool
        ensures { result ≡ breaks_early_reply self.now head.now }
    {
        head.kind.is_reply() && self.is_early(head.msgno)
    }

    fn breaks_already_answered(&self, head: &Head) -> bool
        ensures { result ≡ breaks_already_answered self.now head.now }
    {
        head.kind.is_reply() && !self.is_current(head.msgno) && !self.has_waiting(head.msgno)
    }

    fn breaks_out_of_turn(&self, head: &Head) -> bool
        ensures { result ≡ breaks_out_of_turn self.now head.now }
    {
        head.kind.is_reply() && !self.is_current(head.msgno)
    }

    fn breaks_nul_not_after_ans(&self, head: &Head) -> bool
        ensures { result ≡ breaks_nul_not_after_ans self.now head.now }
    {
        head.kind.is_nul()
            && match self.kind {
                None => false,
                Some(kind) => !kind.is_ans(),
            }
    }

    fn breaks_nul_too_soon(&self, head: &Head) -> bool
        ensures { result ≡ breaks_nul_too_soon self.now head.now }
    {
        head.kind.is_nul() && self.answers.len() > 0
    }

    fn breaks_empty_answer(&self, head: &Head) -> bool
        ensures { result ≡ breaks_empty_answer self.now head.now }
    {
        head.kind.is_ans() && !head.more && head.size == 0 && self.octets_in(head.ansno) == 0
    }

    fn breaks_too_many_requests(&self, head: &Head) -> bool
        ensures { result ≡ breaks_too_many_requests self.now head.now }
    {
        self.is_new_request(head) && self.waiting >= MAX_REQUESTS as usize
    }

    fn breaks_too_many_answers(&self, head: &Head) -> bool
        ensures { result ≡ breaks_too_many_answers self.now head.now }
    {
        head.kind.is_ans()
            && !self.has_answer(head.ansno)
            && self.answers.len() >= MAX_ANSWERS as usize
    }
}

fn breaks_nul_shape(head: &Head) -> bool
    ensures { result ≡ breaks_nul_shape head.now }
{
    head.kind.is_nul() && (head.more || head.size > 0)
}
