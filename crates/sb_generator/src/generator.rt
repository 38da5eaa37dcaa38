//! The bundle that is generated from a number: three servers, five clients that call them, and a random schedule.

ghost use Rattle.std.specs.Prelude.{◌≡◌, ◌/◌, ◌^◌, ◌++◌, IfOk, replicate};
ghost use Rattle.sb_generator.specs.Generator.{next_state, state_after, server_image, client_text, client_image, keys_of, clients_of, cores_of, schedule_of, generated, GeneratedIsLoadable};
ghost use Rattle.sb_bundle.specs.Limits.{IsBundle};

use sb_bundle::{Bundle, Bytes, CoreStart, CoreStarts, Image, Images, Words};
use sb_rewrite::TEXT_ADDRESS;
use std::alloc::{AllocError, Global};

/// A draw multiplies its state with this, modulo 2^64.
const MULTIPLIER: u64 = 6_364_136_223_846_793_005;

/// And then adds this.
const INCREMENT: u64 = 1_442_695_040_888_963_407;

const KEY_COUNT: usize = 5;

const SERVER_COUNT: usize = 3;

const CLIENT_COUNT: usize = 5;

const CORE_COUNT: u32 = 8;

const ENTRY_COUNT: usize = 200_000;

const FRAMES: u32 = 1024;

/// Registers a handler with two stacks and exits. The handler adds 1 to the first word of the data, and returns what it
/// was.
#[rattlefmt::skip]
const SERVER_TEXT: [u8; 39] = [
    0xBF, 0x17, 0x00, 0x40, 0x00, // mov edi, 400017
    0xBE, 0x02, 0x00, 0x00, 0x00, // mov esi, 2
    0xB8, 0x02, 0x00, 0x00, 0x00, // mov eax, 2
    0x0F, 0x05, // syscall
    0x31, 0xFF, // xor edi, edi
    0x31, 0xC0, // xor eax, eax
    0x0F, 0x05, // syscall
    0xBA, 0x01, 0x00, 0x00, 0x00, // 400017: mov edx, 1
    0xF0, 0x48, 0x0F, 0xC1, 0x14, 0x25, 0x00, 0x00, 0x80, 0x00, // lock xadd [800000], rdx
    0xC3, // ret
];

/// Of a client's text, what stands behind the number of its server: it binds to the server until that succeeds.
const BIND: [u8; 19] = [
    0xB8, 0x03, 0x00, 0x00, 0x00, // mov eax, 3
    0x0F, 0x05, // syscall
    0x85, 0xC0, // test eax, eax
    0x75, 0xF0, // jne 400000
    0x49, 0x89, 0xD4, // mov r12, rdx
    0x4D, 0x89, 0xC5, // mov r13, r8
    0x41, 0xBE, // mov r14d, ..
];

/// And what stands behind the number of its calls: it calls so many times, prints what each call returned, and exits.
const CALL: [u8; 32] = [
    0x4C, 0x89, 0xE7, // 40001c: mov rdi, r12
    0x4C, 0x89, 0xEE, // mov rsi, r13
    0xE8, 0xD9, 0xFF, 0xBF, 0x6F, // call 70000000
    0x48, 0x89, 0xD7, // mov rdi, rdx
    0xB8, 0x01, 0x00, 0x00, 0x00, // mov eax, 1
    0x0F, 0x05, // syscall
    0x41, 0xFF, 0xCE, // dec r14d
    0x75, 0xE6, // jne 40001c
    0x31, 0xFF, // xor edi, edi
    0x31, 0xC0, // xor eax, eax
    0x0F, 0x05, // syscall
];

/// Numbers that are drawn one after another: a linear congruential generator of 64 bits.
#[derive(Clone, Copy, Debug)]
struct Draws {
    state: u64,
}

impl Draws {
    /// The next state.
    fn next_state(&mut self) -> u64
        ensures next { self.new.state ≡ next_state self.old.state }
        ensures same { result ≡ self.new.state }
    {
        self.state = self.state.wrapping_mul(MULTIPLIER).wrapping_add(INCREMENT);
        self.state
    }

    /// The upper 31 bits of the next state.
    fn draw(&mut self) -> u64
        ensures next { self.new.state ≡ next_state self.old.state }
        ensures high { result ≡ self.new.state / 2 ^ 33 }
    {
        self.next_state() >> 33
    }
}

/// Key words.
#[tactic(auto, using(crate::proofs::Drawn::drawing))]
fn keys(alloc: Global, draws: &mut Draws) -> Result<Words, AllocError>
    ensures keys { IfOk result (λ words. words ≡ keys_of draws.old.state 5) }
    ensures drawn { IfOk result (λ words. draws.new.state ≡ state_after draws.old.state 5) }
{
    let mut words = Vec::new(alloc);
    for _ in 0..KEY_COUNT {
        words.push(draws.next_state())?;
    }
    Ok(Words::new(words))
}

fn server_image(alloc: Global) -> Result<Image, AllocError>
    ensures { IfOk result (λ image. image ≡ server_image) }
{
    Ok(Image {
        text: Bytes::new(Vec::from_slice(alloc, &SERVER_TEXT)?),
        initial: Bytes::new(Vec::from_slice(alloc, &[0; 8])?),
        heap_pages: 0,
    })
}

/// The text of a client of this server that makes so many calls.
#[tactic(auto, unfolding(sb_bundle::specs::Spelling::number_bytes))]
fn client_text(alloc: Global, server: u32, calls: u32) -> Result<Vec<u8>, AllocError>
    ensures { IfOk result (λ text. text.items ≡ client_text server calls) }
{
    let mut text = Vec::new(alloc);
    text.push(0xBF)?; // mov edi, ..
    text.extend_from_slice(&server.to_le_bytes())?;
    text.extend_from_slice(&BIND)?;
    text.extend_from_slice(&calls.to_le_bytes())?;
    text.extend_from_slice(&CALL)?;
    Ok(text)
}

/// A client, whose server and number of calls are drawn.
#[tactic(auto, using(crate::proofs::Drawn::drawing))]
fn client_image(alloc: Global, draws: &mut Draws) -> Result<Image, AllocError>
    ensures image { IfOk result (λ image. image ≡ client_image draws.old.state 0) }
    ensures drawn { IfOk result (λ image. draws.new.state ≡ state_after draws.old.state 2) }
{
    let server = (draws.draw() % 3) as u32;
    let calls = 200 + (draws.draw() % 100) as u32;
    Ok(Image {
        text: Bytes::new(client_text(alloc, server, calls)?),
        initial: Bytes::new(Vec::new(alloc)),
        heap_pages: 0,
    })
}

/// The servers, and then the clients.
fn images(alloc: Global, draws: &mut Draws) -> Result<Images, AllocError>
    ensures images { IfOk result (λ images. images ≡ replicate 3 server_image ++ clients_of draws.old.state 5) }
    ensures drawn { IfOk result (λ images. draws.new.state ≡ state_after draws.old.state 10) }
{
    let mut images = Vec::new(alloc);
    for _ in 0..SERVER_COUNT {
        images.push(server_image(alloc)?)?;
    }
    push_clients(alloc, &mut images, draws)?;
    Ok(Images::new(images))
}

/// Puts the clients behind other images.
#[tactic(auto, using(crate::proofs::Drawn::drawing))]
fn push_clients(alloc: Global, images: &mut Vec<Image>, draws: &mut Draws) -> Result<(), AllocError>
    ensures images { IfOk result (λ done. images.new.items ≡ images.old.items ++ clients_of draws.old.state 5) }
    ensures drawn { IfOk result (λ done. draws.new.state ≡ state_after draws.old.state 10) }
{
    for _ in 0..CLIENT_COUNT {
        images.push(client_image(alloc, draws)?)?;
    }
    Ok(())
}

/// Each core starts in the process of its own number.
#[tactic(auto, using(crate::proofs::Drawn::drawing))]
fn cores(alloc: Global) -> Result<CoreStarts, AllocError>
    ensures { IfOk result (λ cores. cores ≡ cores_of 8) }
{
    let mut cores = Vec::new(alloc);
    for process in 0..CORE_COUNT {
        cores.push(CoreStart {
            process,
            entry: TEXT_ADDRESS,
        })?;
    }
    Ok(CoreStarts::new(cores))
}

#[tactic(auto, using(crate::proofs::Drawn::drawing))]
fn schedule(alloc: Global, draws: &mut Draws) -> Result<Bytes, AllocError>
    ensures { IfOk result (λ entries. entries ≡ schedule_of draws.old.state 200000) }
{
    let mut entries = Vec::new(alloc);
    for _ in 0..ENTRY_COUNT {
        entries.push((draws.draw() % u64::from(CORE_COUNT)) as u8)?;
    }
    Ok(Bytes::new(entries))
}

/// The bundle that is generated from a number: 8 cores and 8 processes, 1,024 frames, 5 key words and 200,000 entries of
/// the schedule. Processes 0 to 2 are servers; each of the others binds to one of them and calls it 200 to 299 times.
pub fn gen_bundle(alloc: Global, number: u64) -> Result<Bundle, AllocError>
    ensures value { IfOk result (λ bundle. bundle ≡ generated number) }
    ensures grammar { IfOk result (λ bundle. IsBundle bundle) }
{
    let mut draws = Draws { state: number };
    let keys = keys(alloc, &mut draws)?;
    let images = images(alloc, &mut draws)?;
    let cores = cores(alloc)?;
    let schedule = schedule(alloc, &mut draws)?;
    Ok(Bundle {
        frames: FRAMES,
        keys,
        images,
        cores,
        schedule,
    })
}

/// A law, which does nothing when it is called: the loader accepts each generated bundle.
pub fn generated_is_loadable()
    ensures { GeneratedIsLoadable }
{}
