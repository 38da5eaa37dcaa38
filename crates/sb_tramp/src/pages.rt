//! The bytes of the two trampoline pages.

ghost use Rattle.std.specs.Prelude.{◌≡◌, ◌≤◌, ◌-◌, ◌++◌, length};
ghost use Rattle.sb_tramp.specs.Page.{page_size, filler, EachStands, FilledElsewhere, HasPageSize, SwitchesAlone};
ghost use Rattle.sb_tramp.specs.Home.{home_rows, home_page};
ghost use Rattle.sb_tramp.specs.Server.{server_rows, server_page};
ghost use Rattle.sb_tramp.specs.Landing.{EachPhaseStands};

/// What stands where no instruction does: INT3, which the machine's subset refuses.
const FILLER: u8 = 0xCC;

/// The home page up to its last instruction.
const HOME: [u8; 0x6A] = [
    0x48, 0x8B, 0x04, 0x25, 0x20, 0x20, 0x00, 0x70, // 00 mov rax, [70002020]
    0x48, 0x89, 0x18, // 08 mov [rax], rbx
    0x48, 0x89, 0x68, 0x08, // 0B mov [rax+8], rbp
    0x4C, 0x89, 0x60, 0x10, // 0F mov [rax+10], r12
    0x4C, 0x89, 0x68, 0x18, // 13 mov [rax+18], r13
    0x4C, 0x89, 0x70, 0x20, // 17 mov [rax+20], r14
    0x4C, 0x89, 0x78, 0x28, // 1B mov [rax+28], r15
    0x48, 0x89, 0x60, 0x30, // 1F mov [rax+30], rsp
    0x89, 0xF9, // 23 mov ecx, edi
    0x31, 0xC0, // 25 xor eax, eax
    0xEB, 0x17, // 27 jmp 40
    FILLER, FILLER, FILLER, FILLER, FILLER, FILLER, FILLER, FILLER, // 29
    FILLER, FILLER, FILLER, FILLER, FILLER, FILLER, FILLER, FILLER, // 31
    FILLER, FILLER, FILLER, FILLER, FILLER, FILLER, FILLER, // 39
    0x0F, 0x01, 0xD4, // 40 vmfunc
    0x48, 0x8B, 0x04, 0x25, 0x20, 0x20, 0x00, 0x70, // 43 mov rax, [70002020]
    0x48, 0x8B, 0x18, // 4B mov rbx, [rax]
    0x48, 0x8B, 0x68, 0x08, // 4E mov rbp, [rax+8]
    0x4C, 0x8B, 0x60, 0x10, // 52 mov r12, [rax+10]
    0x4C, 0x8B, 0x68, 0x18, // 56 mov r13, [rax+18]
    0x4C, 0x8B, 0x70, 0x20, // 5A mov r14, [rax+20]
    0x4C, 0x8B, 0x78, 0x28, // 5E mov r15, [rax+28]
    0x48, 0x8B, 0x60, 0x30, // 62 mov rsp, [rax+30]
    0x4C, 0x89, 0xC8, // 66 mov rax, r9
    0xC3, // 69 ret
];

/// The server page up to its last instruction.
const SERVER: [u8; 0xA5] = [
    0x48, 0x8D, 0x4C, 0x24, 0xF8, // 00 lea rcx, [rsp-8]
    0x48, 0x2B, 0x0C, 0x25, 0x08, 0x20, 0x00, 0x70, // 05 sub rcx, [70002008]
    0x48, 0xC1, 0xE9, 0x0E, // 0D shr rcx, 0E
    0xB8, 0x01, 0x00, 0x00, 0x00, // 11 mov eax, 1
    0x48, 0xD3, 0xE0, // 16 shl rax, cl
    0xF0, 0x48, 0x09, 0x04, 0x25, 0x00, 0x60, 0x00, 0x70, // 19 lock or [70006000], rax
    0x45, 0x31, 0xC9, // 22 xor r9d, r9d
    0x31, 0xC9, // 25 xor ecx, ecx
    0x31, 0xC0, // 27 xor eax, eax
    0xEB, 0x15, // 29 jmp 40
    FILLER, FILLER, FILLER, FILLER, FILLER, FILLER, FILLER, FILLER, // 2B
    FILLER, FILLER, FILLER, FILLER, FILLER, FILLER, FILLER, FILLER, // 33
    FILLER, FILLER, FILLER, FILLER, FILLER, // 3B
    0x0F, 0x01, 0xD4, // 40 vmfunc
    0x48, 0x3B, 0x34, 0x25, 0x00, 0x20, 0x00, 0x70, // 43 cmp rsi, [70002000]
    0x75, 0x41, // 4B jne 8E
    0x48, 0x8B, 0x04, 0x25, 0x00, 0x60, 0x00, 0x70, // 4D mov rax, [70006000]
    0x48, 0x85, 0xC0, // 55 test rax, rax
    0x74, 0x3C, // 58 je 96
    0x48, 0x8D, 0x48, 0xFF, // 5A lea rcx, [rax-1]
    0x48, 0x21, 0xC1, // 5E and rcx, rax
    0x4C, 0x0F, 0xBC, 0xD0, // 61 bsf r10, rax
    0xF0, 0x48, 0x0F, 0xB1, 0x0C, 0x25, 0x00, 0x60, 0x00, 0x70, // 65 lock cmpxchg [70006000], rcx
    0x75, 0xDC, // 6F jne 4D
    0x49, 0xC1, 0xE2, 0x0E, // 71 shl r10, 0E
    0x48, 0x8B, 0x24, 0x25, 0x08, 0x20, 0x00, 0x70, // 75 mov rsp, [70002008]
    0x49, 0x03, 0xE2, // 7D add rsp, r10
    0x4D, 0x31, 0xD2, // 80 xor r10, r10
    0x31, 0xC9, // 83 xor ecx, ecx
    0x31, 0xC0, // 85 xor eax, eax
    0xFF, 0x24, 0x25, 0x10, 0x20, 0x00, 0x70, // 87 jmp [70002010]
    0x41, 0xB9, 0x01, 0x00, 0x00, 0x00, // 8E mov r9d, 1
    0xEB, 0x06, // 94 jmp 9C
    0x41, 0xB9, 0x02, 0x00, 0x00, 0x00, // 96 mov r9d, 2
    0x4D, 0x31, 0xD2, // 9C xor r10, r10
    0x31, 0xC9, // 9F xor ecx, ecx
    0x31, 0xC0, // A1 xor eax, eax
    0xEB, 0x9B, // A3 jmp 40
];

/// Writes the home page into 4,096 bytes.
pub fn put_home(into: &mut [u8])
    requires { length into.old ≡ page_size }
    ensures { into.new ≡ home_page }
{
    put(into, &HOME);
}

/// Writes the server page into 4,096 bytes.
pub fn put_server(into: &mut [u8])
    requires { length into.old ≡ page_size }
    ensures { into.new ≡ server_page }
{
    put(into, &SERVER);
}

/// Writes the code, and the filler behind it.
fn put(into: &mut [u8], code: &[u8])
    requires { length code.now ≤ length into.old }
    ensures { into.new ≡ code.now ++ filler (length into.old - length code.now) }
{
    let (prefix, rest) = into.split_at_mut(code.len());
    prefix.copy_from_slice(code);
    rest.fill(FILLER);
}

/// A law of the two pages.
///
/// The bytes from a row's offset on begin with the row's instruction; all other bytes are CC; and the bytes of VMFUNC stand at
/// offset 40 alone.
#[tactic(auto, using(crate::proofs::Bytes::home_size, crate::proofs::Bytes::server_size))]
pub fn rows_stand()
    ensures home { EachStands home_rows }
    ensures home_filler { FilledElsewhere home_rows }
    ensures home_size { HasPageSize home_rows }
    ensures server { EachStands server_rows }
    ensures server_filler { FilledElsewhere server_rows }
    ensures server_size { HasPageSize server_rows }
    ensures home_switch { SwitchesAlone home_page }
    ensures server_switch { SwitchesAlone server_page }
    ensures phases { EachPhaseStands }
{}
