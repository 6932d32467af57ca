//! What a voter knows, and its steps.
ghost use Rattle.std.specs.Prelude.{◌≡◌, ◌<◌, ◌≤◌, ◌+◌, ◌^◌, ◌∷◌, ◌++◌, [], true, slice_index};
ghost use Rattle.arrayvec.specs.ArrayVec.{array_vec_len};
ghost use Rattle.numbers.specs.Bounds.{max_clients};
ghost use Rattle.voter.specs.Steps.{admit, again, ends_grant, grant_front, held_stamp, inquiry, is_before, is_grant, is_later, is_older, is_refused, is_up_to, needs_grant, outcome_of, join_queue, take_release, take_relinquish, remind, reply, start, take_request, take_request_beside, current_stamp};

use crate::queue::Queue;
use arrayvec::ArrayVec;
use message::{ClientBody, Request, ToClient, ToVoter, VoterBody};
use numbers::MAX_CLIENTS;

/// A grant of the vote to a request.
#[derive(Clone, Copy, Debug, PartialEq, Eq)]
pub struct Grant {
    /// The client that holds the vote.
    pub client: u8,
    /// The stamp of the client's request.
    pub stamp: u64,
    /// The number of the grant. The voter counts its grants from 1.
    pub grant: u64,
}

/// What taking a message would do.
#[derive(Clone, Copy, Debug, PartialEq, Eq)]
pub struct Effect {
    /// Whether it would end the current grant. False if it would be refused.
    pub frees: bool,
    /// Whether it would be refused: it needs a new grant, and none is left within the limit.
    pub refused: bool,
}

/// The replies of a voter to one message, or its reminders.
pub type Replies = ArrayVec<ToClient, 3>;

/// What a voter knows.
#[derive(Drop)]
pub struct VoterState {
    /// The voter's number.
    pub id: u8,
    /// How many grants it may give.
    pub limit: u64,
    /// The grant that holds the vote.
    pub held: Option<Grant>,
    /// Whether an INQUIRE about the current grant is outstanding.
    pub inquiring: bool,
    /// The requests that wait for the vote.
    pub waiting: Queue,
    /// For each client the highest stamp of its finished requests, 0 at first.
    pub finished: [u64; MAX_CLIENTS],
    /// How many grants were given.
    pub granted: u64,
    /// The highest stamp that it saw, 0 at first.
    pub seen: u64,
}

impl VoterState {
    /// Returns what a new voter knows.
    pub fn new(id: u8, limit: u64) -> Self
        ensures { result ≡ start id limit }
    {
        VoterState {
            id,
            limit,
            held: None,
            inquiring: false,
            waiting: Queue::new(),
            finished: [0; MAX_CLIENTS],
            granted: 0,
            seen: 0,
        }
    }

    fn reply(&self, client: u8, body: ClientBody) -> ToClient
        ensures { result ≡ reply self.now client body }
    {
        ToClient {
            voter: self.id,
            client,
            seen: self.seen,
            body,
        }
    }

    #[tactic(auto, unfolding(crate::specs::Steps::grant_front))]
    fn grant_front(&mut self, replies: &mut Replies)
        requires room { array_vec_len replies.old < 3 }
        requires few { self.old.granted < 2 ^ 63 }
        ensures state { self.new ≡ (grant_front self.old).state }
        ensures replies { replies.new.items ≡ replies.old.items ++ (grant_front self.old).replies }
        ensures len { array_vec_len replies.new ≤ array_vec_len replies.old + 1 }
        ensures granted { self.new.granted ≤ self.old.granted + 1 }
    {
        if let Some(Request { stamp, client }) = self.waiting.front() {
            self.waiting.remove(client);
            let grant = self.granted + 1;
            self.granted = grant;
            self.held = Some(Grant {
                client,
                stamp,
                grant,
            });
            self.inquiring = false;
            replies.push(self.reply(client, ClientBody::Locked { stamp, grant }));
        }
    }

    /// Returns the highest finished stamp of this client, 0 if there is none.
    pub fn finished_of(&self, client: u8) -> u64
        ensures { result ≡ slice_index self.now.finished client }
    {
        match self.finished.get(usize::from(client)) {
            Some(stamp) => *stamp,
            None => 0,
        }
    }

    fn held_stamp(&self, client: u8) -> Option<u64>
        ensures { result ≡ held_stamp self.now.held client }
    {
        match self.held {
            Some(grant) if grant.client == client => Some(grant.stamp),
            _ => None,
        }
    }

    #[tactic(auto, unfolding(crate::specs::Steps::take_release))]
    fn release(&mut self, client: u8, stamp: u64, replies: &mut Replies)
        requires client { client < max_clients }
        requires room { array_vec_len replies.old < 3 }
        requires few { self.old.granted < 2 ^ 63 }
        ensures state { self.new ≡ (take_release self.old client stamp).state }
        ensures replies { replies.new.items ≡ replies.old.items ++ (take_release self.old client stamp).replies }
        ensures len { array_vec_len replies.new ≤ array_vec_len replies.old + 1 }
        ensures granted { self.new.granted ≤ self.old.granted + 1 }
    {
        let place = client as usize;
        self.finished[place] = self.finished[place].max(stamp);
        if is_up_to(self.held_stamp(client), stamp) {
            self.held = None;
            self.inquiring = false;
            self.grant_front(replies);
        } else if is_up_to(self.waiting.stamp_of(client), stamp) {
            self.waiting.remove(client);
        }
    }

    fn fail(&self, request: Request, replies: &mut Replies)
        requires room { array_vec_len replies.old < 3 }
        ensures replies { replies.new.items
            ≡ replies.old.items ++ reply self.now request.client (ClientBody.Fail request.stamp) ∷ [] }
        ensures len { array_vec_len replies.new ≡ array_vec_len replies.old + 1 }
    {
        let stamp = request.stamp;
        replies.push(self.reply(request.client, ClientBody::Fail { stamp }));
    }

    /// Sends INQUIRE to the holder, unless one is outstanding.
    fn inquire(&mut self, grant: Grant, replies: &mut Replies)
        requires room { array_vec_len replies.old < 3 }
        ensures state { self.new ≡ record self.old { inquiring = true } }
        ensures replies { replies.new.items ≡ replies.old.items ++ inquiry self.old.inquiring self.old grant }
        ensures len { array_vec_len replies.new ≤ array_vec_len replies.old + 1 }
    {
        if !self.inquiring {
            replies.push(self.reply(grant.client, ClientBody::Inquire { grant: grant.grant }));
            self.inquiring = true;
        }
    }

    /// Queues a new request while another one holds the vote.
    #[tactic(auto, unfolding(crate::specs::Steps::join_queue))]
    fn queue_behind(&mut self, grant: Grant, request: Request, replies: &mut Replies)
        requires client { request.client < max_clients }
        requires room { array_vec_len replies.old < 2 }
        ensures state { self.new ≡ (join_queue self.old grant request.client request.stamp).state }
        ensures replies { replies.new.items
            ≡ replies.old.items ++ (join_queue self.old grant request.client request.stamp).replies }
    {
        let holder = Request {
            stamp: grant.stamp,
            client: grant.client,
        };
        let former = self.waiting.front();
        self.waiting.insert(request);
        if is_before(former, request) {
            self.fail(request, replies);
            return;
        }
        if holder.precedes(request) {
            self.fail(request, replies);
        } else {
            self.inquire(grant, replies);
        }
        if let Some(former) = former {
            self.fail(former, replies);
        }
    }

    /// Admits a new request of a client that neither holds the vote nor waits.
    #[tactic(auto, unfolding(crate::specs::Steps::admit))]
    fn admit(&mut self, request: Request, replies: &mut Replies)
        requires client { request.client < max_clients }
        requires room { array_vec_len replies.old < 2 }
        requires few { self.old.granted < 2 ^ 63 }
        ensures state { self.new ≡ (admit self.old request.client request.stamp).state }
        ensures replies { replies.new.items
            ≡ replies.old.items ++ (admit self.old request.client request.stamp).replies }
    {
        match self.held {
            Some(grant) => self.queue_behind(grant, request, replies),
            None => {
                self.waiting.insert(request);
                self.grant_front(replies);
            }
        }
    }

    /// Returns the stamp of the client's current request: the one that holds the vote or waits.
    pub fn current_stamp(&self, client: u8) -> Option<u64>
        ensures { result ≡ current_stamp self.now client }
    {
        match self.held_stamp(client) {
            Some(stamp) => Some(stamp),
            None => self.waiting.stamp_of(client),
        }
    }

    /// Repeats the reply to a request that holds the vote or waits already.
    fn answer_again(&self, request: Request, replies: &mut Replies)
        requires room { array_vec_len replies.old < 3 }
        ensures replies { replies.new.items
            ≡ replies.old.items ++ again self.now self.now.held request.client request.stamp }
    {
        let stamp = request.stamp;
        let body = match self.held {
            Some(g) if g.client == request.client => ClientBody::Locked {
                stamp,
                grant: g.grant,
            },
            _ => ClientBody::Fail { stamp },
        };
        replies.push(self.reply(request.client, body));
    }

    #[tactic(auto, unfolding(crate::specs::Steps::take_request_beside))]
    fn request_beside(&mut self, request: Request, current: Option<u64>, replies: &mut Replies)
        requires client { request.client < max_clients }
        requires room { replies.old.items ≡ [] }
        requires few { self.old.granted + 1 < 2 ^ 63 }
        ensures state { self.new ≡ (take_request_beside self.old request.client request.stamp current).state }
        ensures replies { replies.new.items
            ≡ (take_request_beside self.old request.client request.stamp current).replies }
    {
        match current {
            None => self.admit(request, replies),
            Some(stamp) => {
                if request.stamp == stamp {
                    self.answer_again(request, replies);
                } else if request.stamp > stamp {
                    self.release(request.client, stamp, replies);
                    self.admit(request, replies);
                }
            }
        }
    }

    #[tactic(auto, unfolding(crate::specs::Steps::take_request))]
    fn request(&mut self, request: Request, replies: &mut Replies)
        requires client { request.client < max_clients }
        requires room { replies.old.items ≡ [] }
        requires few { self.old.granted + 1 < 2 ^ 63 }
        ensures state { self.new ≡ (take_request self.old request.client request.stamp).state }
        ensures replies { replies.new.items ≡ (take_request self.old request.client request.stamp).replies }
    {
        if request.stamp > self.finished_of(request.client) {
            let current = self.current_stamp(request.client);
            self.request_beside(request, current, replies);
        }
    }

    #[tactic(auto, unfolding(crate::specs::Steps::take_relinquish))]
    fn relinquish(&mut self, client: u8, grant: u64, replies: &mut Replies)
        requires client { client < max_clients }
        requires room { array_vec_len replies.old < 3 }
        requires few { self.old.granted < 2 ^ 63 }
        ensures state { self.new ≡ (take_relinquish self.old client grant).state }
        ensures replies { replies.new.items ≡ replies.old.items ++ (take_relinquish self.old client grant).replies }
    {
        if let Some(g) = self.held {
            if g.client == client && g.grant == grant {
                self.held = None;
                self.inquiring = false;
                self.waiting.insert(Request {
                    stamp: g.stamp,
                    client,
                });
                self.grant_front(replies);
            }
        }
    }

    /// Returns whether a message needs a new grant.
    #[tactic(auto, unfolding(crate::specs::Steps::needs_grant))]
    fn needs_grant(&self, message: &ToVoter) -> bool
        ensures { result ≡ needs_grant self.now message.now.client message.now.body }
    {
        let client = message.client;
        match message.body {
            VoterBody::Request { stamp } => {
                stamp > self.finished_of(client)
                    && is_later(self.current_stamp(client), stamp)
                    && (self.held.is_none() || self.held_stamp(client).is_some())
            }
            VoterBody::Relinquish { grant } => is_grant(self.held, client, grant),
            VoterBody::Release { stamp } => {
                is_up_to(self.held_stamp(client), stamp) && self.waiting.front().is_some()
            }
        }
    }

    /// Returns whether a message needs a new grant, and none is left.
    pub fn is_refused(&self, message: &ToVoter) -> bool
        ensures { result ≡ is_refused self.now message.now }
    {
        self.granted >= self.limit && self.needs_grant(message)
    }

    /// Returns whether a message ends the current grant.
    #[tactic(auto, unfolding(crate::specs::Steps::ends_grant))]
    pub fn ends_grant(&self, message: &ToVoter) -> bool
        ensures { result ≡ ends_grant self.now message.now.client message.now.body }
    {
        let client = message.client;
        match message.body {
            VoterBody::Request { stamp } => {
                stamp > self.finished_of(client) && is_older(self.held_stamp(client), stamp)
            }
            VoterBody::Relinquish { grant } => is_grant(self.held, client, grant),
            VoterBody::Release { stamp } => is_up_to(self.held_stamp(client), stamp),
        }
    }

    /// Returns LOCKED for the holder, and INQUIRE if one is outstanding.
    #[tactic(auto, unfolding(crate::specs::Steps::remind))]
    pub fn remind(&self) -> Replies
        ensures { result.items ≡ remind self.now }
    {
        let mut replies = ArrayVec::new();
        if let Some(
            Grant {
                client,
                stamp,
                grant,
            },
        ) = self.held
        {
            replies.push(self.reply(client, ClientBody::Locked { stamp, grant }));
            if self.inquiring {
                replies.push(self.reply(client, ClientBody::Inquire { grant }));
            }
        }
        replies
    }

    /// Does what a message asks for. Enough grants have to be left.
    pub fn act(&mut self, message: &ToVoter, replies: &mut Replies)
        requires client { message.now.client < max_clients }
        requires room { replies.old.items ≡ [] }
        requires few { self.old.granted + 1 < 2 ^ 63 }
        ensures state { self.new ≡ (outcome_of self.old message.now.client message.now.body).state }
        ensures replies { replies.new.items ≡ (outcome_of self.old message.now.client message.now.body).replies }
    {
        let client = message.client;
        match message.body {
            VoterBody::Request { stamp } => {
                self.seen = self.seen.max(stamp);
                self.request(Request { stamp, client }, replies);
            }
            VoterBody::Relinquish { grant } => self.relinquish(client, grant, replies),
            VoterBody::Release { stamp } => {
                self.seen = self.seen.max(stamp);
                self.release(client, stamp, replies);
            }
        }
    }
}

fn is_later(current: Option<u64>, stamp: u64) -> bool
    ensures { result ≡ is_later current stamp }
{
    match current {
        Some(current) => current < stamp,
        None => true,
    }
}

fn is_older(stamp: Option<u64>, limit: u64) -> bool
    ensures { result ≡ is_older stamp limit }
{
    match stamp {
        Some(stamp) => stamp < limit,
        None => false,
    }
}

fn is_grant(held: Option<Grant>, client: u8, grant: u64) -> bool
    ensures { result ≡ is_grant held client grant }
{
    match held {
        Some(held) => held.client == client && held.grant == grant,
        None => false,
    }
}

fn is_before(first: Option<Request>, request: Request) -> bool
    ensures { result ≡ is_before first request }
{
    match first {
        Some(first) => first.precedes(request),
        None => false,
    }
}

/// Returns whether there is a stamp, and it is at most the limit.
fn is_up_to(stamp: Option<u64>, limit: u64) -> bool
    ensures { result ≡ is_up_to stamp limit }
{
    match stamp {
        Some(stamp) => stamp <= limit,
        None => false,
    }
}
