//! Laws of what is recorded and of what was written, each as the contract of a function that does nothing.

ghost use Rattle.std.specs.Prelude.{◌≡◌, ◌<◌, ◌∷◌, [], true, false, List, length};
ghost use Rattle.bridge_run.specs.declared.course.serve_end.ServeEnd.{ServeEnd as End};
ghost use Rattle.bridge_run.specs.events.Events.{PastLinkEvent};
ghost use Rattle.bridge_run.specs.events.Prescribed.{Prescribed, gained};
ghost use Rattle.bridge_run.specs.declared.course.polling.TheConstants.{POLL_LIMIT};
ghost use Rattle.bridge_run.specs.declared.written.recording.TheConstants.{WAITING_LIMIT};
ghost use Rattle.bridge_run.specs.written.Recorded.{sends_any};
ghost use Rattle.bridge_run.specs.course.Course.{Setting, Course, Next};
ghost use Rattle.bridge_run.specs.course.Calls.{Outcome, Goes, Stops, put, rest, course_of};
ghost use Rattle.bridge_run.specs.course.Serves.{Reaches, NoneWaits};
ghost use Rattle.usb_base.specs.declared.side.Side.TheVariants.{Client};
ghost use Rattle.gate_outside.specs.Calls.{Call, went};
ghost use Rattle.bridge_run.specs.log.Log.{Terms, events_of, IsWritten, Settled};
ghost use Rattle.bridge_run.specs.log.Clients.{got_by, joined, sent_to_each};

/// A law: of the lines that are recorded fewer than 64 KiB wait to be written at any time, and none once an event sends
/// bytes, refuses a side or lets the client go, once a round brings nothing, and at each end that is no fault.
pub fn few_lines_wait()
    ensures few { (s : Setting) (next : Next) (c : Course) (to : Outcome) → c.waiting ≡ [] → Reaches s (Goes next c) to → length (course_of to).waiting < WAITING_LIMIT }
    ensures sent { (p : Prescribed) (e : PastLinkEvent) (c : Course) → sends_any (gained p.to_client c.events e) (gained p.to_host c.events e) (gained p.refusals c.events e) (p.lets_go (e ∷ c.events)) ≡ true → (put p e c).waiting ≡ [] }
    ensures quiet { (s : Setting) (c : Course) → c.busy ≡ false → (course_of (rest s c)).waiting ≡ [] }
    ensures ends { (s : Setting) (next : Next) (c : Course) (e : End) (d : Course) → Reaches s (Goes next c) (Stops e d) → NoneWaits e d }
{}

/// A law: what was written to clients is what each of them got, one client after another; and where all is written,
/// each got just what the events send to it. Each client but the latest has got that also where a call failed or
/// memory ran out.
pub fn clients_get_their_own()
    ensures joined { (calls : List Call) → joined (got_by calls) ≡ went Client calls }
    ensures each { (terms : Terms) (p : Prescribed) (calls : List Call) → Settled terms p calls → IsWritten terms p (events_of calls) calls → got_by calls ≡ sent_to_each p (events_of calls) }
    ensures earlier { (terms : Terms) (p : Prescribed) (calls : List Call) → Settled terms p calls → (got_by calls).earlier ≡ (sent_to_each p (events_of calls)).earlier }
{}

/// A law: the numbers of bytes that definitions name are these.
pub fn round_limits()
    ensures polled { POLL_LIMIT ≡ 65536 }
    ensures waiting { WAITING_LIMIT ≡ 65536 }
{}
