// What is lent to the drive, and one packet sent.
use lines::show::Hex;
use numbers::counts::count4;
use packet_parts::replies::SENSE_LENGTH;
use std::io;
use tapecard::packet_calls::{tapecard_fresh, tapecard_packet};

const IMAGE_LENGTH: usize = 2084;

const BUFFER_LENGTH: usize = 2048;

const REQUEST_SENSE: [u8; 12] = [3, 0, 0, 0, SENSE_LENGTH as u8, 0, 0, 0, 0, 0, 0, 0];

// The record's bytes, the image and the data buffer, and how much of the last two is lent: 01 has images and buffers of many lengths.
#[derive(Clone, Copy, PartialEq, Eq)]
pub struct Card {
    pub state: [u8; 16],
    pub image: [u8; IMAGE_LENGTH],
    pub buf: [u8; BUFFER_LENGTH],
    pub lent: usize,
    pub room: usize,
}

impl Card {
    // 01, "Plates": C 4, B 512, W 0, kinds 1 2 1, U 3, attention cleared; the blocks hold 0, the buffer EE.
    pub fn plate() -> Card {
        let mut image = [0u8; IMAGE_LENGTH];
        image[1] = 32;
        image[2] = 2;
        image[7] = 4;
        image[11] = 3;
        image[15] = 32;
        image[19] = 36;
        image[32] = 1;
        image[33] = 2;
        image[34] = 1;
        let mut state = [0u8; 16];
        tapecard_fresh(&mut state);
        state[5] = 0;
        Card {
            state,
            image,
            buf: [0xEE; BUFFER_LENGTH],
            lent: IMAGE_LENGTH,
            room: BUFFER_LENGTH,
        }
    }

    // What the drive answers to a packet, with as much of the image and of the buffer as is lent.
    fn answered(&mut self, packet: &[u8]) -> [u8; 16] {
        let lent = self.lent.min(IMAGE_LENGTH);
        let room = self.room.min(BUFFER_LENGTH);
        let image = &mut self.image[..];
        let buf = &mut self.buf[..];
        let mut answer = [0u8; 16];
        tapecard_packet(
            &mut self.state,
            &mut image[..lent],
            packet,
            &mut buf[..room],
            &mut answer,
        );
        answer
    }

    // What a REQUEST SENSE would bring, which is answered to a copy of the card.
    fn show_sense(&self, rt: &impl Print) -> io::Result<()> {
        let mut copy = *self;
        copy.buf = [0; BUFFER_LENGTH];
        copy.room = SENSE_LENGTH;
        copy.answered(&REQUEST_SENSE);
        let sense = Hex(&copy.buf[..SENSE_LENGTH]);
        print!(rt; " sense{sense}")
    }

    fn show_answer(&self, rt: &impl Print, answer: [u8; 16]) -> io::Result<()> {
        let (number, status) = (answer[0], answer[1]);
        let (blocks, bytes) = (count4(&answer, 4), count4(&answer, 8));
        let marked = count4(&answer, 12);
        let (place, recorded) = (count4(&self.state, 0), count4(&self.image, 8));
        print!(rt; " number {number} status {status} blocks {blocks} bytes {bytes}")?;
        print!(rt; " marked {marked} P {place} U {recorded}")
    }

    // One packet: what it is answered, and P, U and the sense after it, or whether a refused one left everything as it was.
    pub fn send(&mut self, rt: &impl Print, packet: &[u8]) -> io::Result<()> {
        let before = *self;
        let answer = self.answered(packet);
        self.show_answer(rt, answer)?;
        if answer[0] == 0 {
            self.show_sense(rt)?;
        } else if *self == before {
            rt.print(" record, image and buffer unchanged")?;
        } else {
            rt.print(" CHANGED")?;
        }
        rt.write_all(b"\n")
    }
}
