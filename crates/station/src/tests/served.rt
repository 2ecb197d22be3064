//! Whole runs of `station serve`: its clients have sent all their bytes before the port is bound.

use crate::execute;
use input_text::{TrackedReader, TrackedWriter};
use std::alloc::{Allocator, Global};
use std::cell::RefCell;
use std::fs::{Files, Metadata, OpenOptions};
use std::io;
use std::io::{Read, Write};
use std::net::{Net, Shutdown, SocketAddr, TcpListener, TcpStream};
use std::test::Fail;

/// A system whose ports have clients from the start, which have sent these bytes and send no more.
#[derive(Drop)]
struct Visited<'a> {
    rt: &'a HostRuntime,
    sent: &'a [&'a [u8]],
    clients: RefCell<Vec<TcpStream>>,
}

impl<'a> Alloc for Visited<'a> {
    type A = Global;

    fn alloc(&self) -> Global {
        self.rt.alloc()
    }
}

impl<'a> Net for Visited<'a> {
    type Stream = TcpStream;

    type Listener = TcpListener;

    fn bind(&self, _addr: SocketAddr) -> io::Result<TcpListener> {
        let listener: TcpListener = TcpListener::bind(self.rt, "127.0.0.1:0")?;
        for bytes in self.sent {
            let mut client: TcpStream = TcpStream::connect(self.rt, listener.local_addr()?)?;
            client.write_all(bytes)?;
            client.shutdown(Shutdown::Write)?;
            let kept = match self.clients.try_borrow_mut() {
                Ok(mut clients) => clients.push(client).is_ok(),
                Err(_) => false,
            };
            if !kept {
                return Err(io::Error::from(io::ErrorKind::Other));
            }
        }
        Ok(listener)
    }

    fn connect(&self, addr: SocketAddr) -> io::Result<TcpStream> {
        self.rt.connect(addr)
    }
}

impl<'a> Files for Visited<'a> {
    type File = <HostRuntime as Files>::File;

    type Dir = <HostRuntime as Files>::Dir;

    fn open_file(&self, how: &OpenOptions, path: &str) -> io::Result<Self::File> {
        self.rt.open_file(how, path)
    }

    fn open_dir(&self, path: &str) -> io::Result<Self::Dir> {
        self.rt.open_dir(path)
    }

    fn metadata(&self, path: &str) -> io::Result<Metadata> {
        self.rt.metadata(path)
    }

    fn symlink_metadata(&self, path: &str) -> io::Result<Metadata> {
        self.rt.symlink_metadata(path)
    }

    fn copy(&self, from: &str, to: &str) -> io::Result<u64> {
        self.rt.copy(from, to)
    }

    fn rename(&self, from: &str, to: &str) -> io::Result<()> {
        self.rt.rename(from, to)
    }

    fn remove_file(&self, path: &str) -> io::Result<()> {
        self.rt.remove_file(path)
    }

    fn create_dir(&self, path: &str) -> io::Result<()> {
        self.rt.create_dir(path)
    }

    fn remove_dir(&self, path: &str) -> io::Result<()> {
        self.rt.remove_dir(path)
    }

    fn remove_dir_all<B: Allocator>(&self, alloc: B, path: &str) -> io::Result<()> {
        self.rt.remove_dir_all(alloc, path)
    }
}

/// Runs these arguments with this output after the clients have sent these bytes. Returns the
/// status and the fault line.
pub(super) fn serve_to<W: Write>(
    rt: &HostRuntime,
    words: &[&str],
    sent: &[&[u8]],
    output: &mut W,
) -> (u8, Vec<u8>) {
    let host = Visited {
        rt,
        sent,
        clients: RefCell::new(Vec::new(rt.alloc())),
    };
    let mut input = TrackedReader::new(b"".as_slice());
    let mut output = TrackedWriter::new(output);
    let mut faults = Vec::new(rt.alloc());
    let status = execute(&host, words, &mut input, &mut output, &mut faults);
    (status, faults)
}
